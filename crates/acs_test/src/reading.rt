//! Reading the input of a comparison.
ghost use Rattle.std.specs.Prelude.{◌≡◌, ◌<◌, ◌+◌, ◌^◌, Ok, Some, length, IfOk, IfErr};
ghost use Rattle.desk_common.specs.Exact.{IsExact, MayRefuse};
ghost use Rattle.deck_meaning.specs.Reading.{Configures};
ghost use Rattle.acs_test.specs.Layout.{parts_seen};
ghost use Rattle.acs_test.specs.Reading.{Gives, IsReading, IsRefusal, Refuses, TellsDeck};

use crate::cases::Cases;
use crate::cases_err::{CasesErr, Side};
use crate::layout::{InputParts, parts_of};
use crate::table_cases::read_table;
use deck_meaning::{Config, DeckErr};
use desk_common::{Items, Shared};
use sms_construct::DeckText;
use sms_deck::read_deck;
use std::alloc::{AllocError, Global};

/// The configurations of both decks and the cases of the table, or the first fault of the input (docs/manual/tool.md,
/// "Comparing two decks").
pub fn read_cases(alloc: Global, bytes: &[u8]) -> Result<Cases, CasesErr>
    requires { length bytes.now < 2 ^ 32 }
    ensures ok { IfOk result (IsReading bytes.now) }
    ensures err { IfErr result (MayRefuse (IsRefusal bytes.now) (Some CasesErr.NoMemory)) }
    ensures exactly { IsExact (IsReading bytes.now) (IsRefusal bytes.now) (Some CasesErr.NoMemory) result }
{
    match parts_of(bytes) {
        Ok(parts) => read_parts(alloc, parts),
        Err(line) => Err(CasesErr::Layout(line)),
    }
}

/// The same of two decks and a table that are texts of their own.
pub fn read_parts(alloc: Global, parts: InputParts<'_>) -> Result<Cases, CasesErr>
    requires { length parts.table.now + 2 < 2 ^ 32 }
    ensures ok { IfOk result (Gives (parts_seen parts.entry)) }
    ensures err { IfErr result (MayRefuse (Refuses (parts_seen parts.entry)) (Some CasesErr.NoMemory)) }
    ensures exactly { IsExact (Gives (parts_seen parts.entry)) (Refuses (parts_seen parts.entry))
        (Some CasesErr.NoMemory) result }
{
    match read_side(alloc, Side::Old, parts.before) {
        Ok(before) => read_new(alloc, before, parts),
        Err(err) => Err(err),
    }
}

// The same, where the deck of OLD gives this configuration.
fn read_new(alloc: Global, before: Config, parts: InputParts<'_>) -> Result<Cases, CasesErr>
    requires table { length parts.table.now + 2 < 2 ^ 32 }
    requires old { Configures parts.before.now before }
    requires only { IsExact (Configures parts.before.now) (TellsDeck Side.Old parts.before.now) (Some CasesErr.NoMemory)
        (Ok before) }
    ensures ok { IfOk result (Gives (parts_seen parts.entry)) }
    ensures err { IfErr result (MayRefuse (Refuses (parts_seen parts.entry)) (Some CasesErr.NoMemory)) }
    ensures exactly { IsExact (Gives (parts_seen parts.entry)) (Refuses (parts_seen parts.entry))
        (Some CasesErr.NoMemory) result }
{
    match read_side(alloc, Side::New, parts.after) {
        Ok(after) => read_list(alloc, before, after, parts),
        Err(err) => Err(err),
    }
}

// The same, where the decks give these configurations.
fn read_list(
    alloc: Global,
    before: Config,
    after: Config,
    parts: InputParts<'_>,
) -> Result<Cases, CasesErr>
    requires table { length parts.table.now + 2 < 2 ^ 32 }
    requires old { Configures parts.before.now before }
    requires only { IsExact (Configures parts.before.now) (TellsDeck Side.Old parts.before.now) (Some CasesErr.NoMemory)
        (Ok before) }
    requires new { Configures parts.after.now after }
    requires only_new { IsExact (Configures parts.after.now) (TellsDeck Side.New parts.after.now)
        (Some CasesErr.NoMemory) (Ok after) }
    ensures ok { IfOk result (Gives (parts_seen parts.entry)) }
    ensures err { IfErr result (MayRefuse (Refuses (parts_seen parts.entry)) (Some CasesErr.NoMemory)) }
    ensures exactly { IsExact (Gives (parts_seen parts.entry)) (Refuses (parts_seen parts.entry))
        (Some CasesErr.NoMemory) result }
{
    match read_table(alloc, parts.table) {
        Ok(list) => Ok(Cases {
            before,
            after,
            list,
        }),
        Err(err) => Err(err),
    }
}

// The configuration of the deck of this side.
fn read_side(alloc: Global, side: Side, bytes: &[u8]) -> Result<Config, CasesErr>
    ensures ok { IfOk result (Configures bytes.now) }
    ensures err { IfErr result (MayRefuse (TellsDeck side bytes.now) (Some CasesErr.NoMemory)) }
    ensures exactly { IsExact (Configures bytes.now) (TellsDeck side bytes.now) (Some CasesErr.NoMemory) result }
{
    let Ok(deck) = shared_deck(alloc, bytes) else {
        return Err(CasesErr::NoMemory);
    };
    match read_deck(alloc, &deck) {
        Ok(config) => Ok(config),
        Err(DeckErr::Fault(fault)) => Err(CasesErr::Deck(side, fault)),
        Err(DeckErr::NoMemory) => Err(CasesErr::NoMemory),
    }
}

fn shared_deck(alloc: Global, bytes: &[u8]) -> Result<DeckText, AllocError>
    ensures { IfOk result (λ deck. deck ≡ bytes.now) }
{
    Shared::new(alloc, Items::from_slice(alloc, bytes)?)
}
