// The effect of a change on the tables.
ghost use Rattle.std.specs.Prelude.{◌≡◌, ◌++◌, ◌∷◌, [], IsSome, filter, not, true};
ghost use Rattle.std.specs.List.{list_all};
ghost use Rattle.sqlite.specs.Held.{state};
ghost use Rattle.sqlite.specs.State.{Survives};
ghost use Rattle.sms_keeper.specs.Suits.{Suits, deck_of, has_status};
ghost use Rattle.sms_keeper.specs.Tables.{deck_rows, is_reply_below, put_floor, put_set, without_set};
ghost use Rattle.keeper_statements.specs.Steps.{MayStay};
ghost use Rattle.sms_sqlite.specs.Writing.{MayLead, with_effect};

use crate::numbers::{fits_column, in_column};
use crate::statuses::{replace_statuses, set_status};
use dsn_mask::{Dsn, Name};
use keeper_statements as statements;
use sms_construct::{DataSet, Op};
use sms_keeper::{Change, Effect, StatusRow};
use sms_records::set_record;
use sqlite::{Alter, Error, Transaction};
use std::alloc::Global;

// Makes the effect of the change, without the row of its reply.
pub fn make_effect<S: Alter>(
    tx: &mut Transaction<'_, S>,
    alloc: Global,
    change: &Change,
) -> Result<(), Error>
    requires { Suits change.now }
    ensures same_reference { tx.new.conn.ghost_name ≡ tx.old.conn.ghost_name }
    ensures leads { MayLead (with_effect change.now) (state S.Store tx.old.conn.now)
        (state S.Store tx.new.conn.now) result }
    ensures stays { MayStay (state S.Store tx.old.conn.now) (state S.Store tx.new.conn.now) result }
    ensures survives { Survives (state S.Store tx.old.conn.now) (state S.Store tx.new.conn.now) (λ _. ⊥) }
{
    match &change.effect {
        Effect::Nothing => Ok(()),
        Effect::PutSet(set) => put_data_set(tx, alloc, set.get()),
        Effect::DropSet(dsn) => drop_data_set(tx, dsn),
        Effect::Activated { count, statuses } => {
            activate(tx, *count, &change.request.op, statuses.as_slice())
        }
        Effect::SetStatus { target, status } => set_status(tx, target, *status),
        Effect::Floor { job, floor } => raise_floor(tx, job, *floor),
    }
}

// Puts the data set in place of the one of its name, or adds it.
fn put_data_set<S: Alter>(
    tx: &mut Transaction<'_, S>,
    alloc: Global,
    set: &DataSet,
) -> Result<(), Error>
    ensures same_reference { tx.new.conn.ghost_name ≡ tx.old.conn.ghost_name }
    ensures leads { MayLead (λ rows. record rows { sets = put_set set.now rows.sets }) (state S.Store tx.old.conn.now)
        (state S.Store tx.new.conn.now) result }
    ensures stays { MayStay (state S.Store tx.old.conn.now) (state S.Store tx.new.conn.now) result }
    ensures survives { Survives (state S.Store tx.old.conn.now) (state S.Store tx.new.conn.now) (λ _. ⊥) }
{
    let bytes = set_record(alloc, set)?;
    statements::put_set(tx, set.dsn.bytes(), &bytes)?;
    Ok(())
}

// Drops the data set of this name, where there is one.
fn drop_data_set<S: Alter>(tx: &mut Transaction<'_, S>, dsn: &Dsn) -> Result<(), Error>
    ensures same_reference { tx.new.conn.ghost_name ≡ tx.old.conn.ghost_name }
    ensures leads { MayLead (λ rows. record rows { sets = without_set dsn.now rows.sets })
        (state S.Store tx.old.conn.now) (state S.Store tx.new.conn.now) result }
    ensures stays { MayStay (state S.Store tx.old.conn.now) (state S.Store tx.new.conn.now) result }
    ensures survives { Survives (state S.Store tx.old.conn.now) (state S.Store tx.new.conn.now) (λ _. ⊥) }
{
    statements::drop_set(tx, dsn.bytes())?;
    Ok(())
}

// Sets the floor of the job, and drops its replies below it.
fn raise_floor<S: Alter>(tx: &mut Transaction<'_, S>, job: &Name, floor: u32) -> Result<(), Error>
    ensures same_reference { tx.new.conn.ghost_name ≡ tx.old.conn.ghost_name }
    ensures leads { MayLead
        (λ rows. record rows {
          replies = filter (λ row. not (is_reply_below job.now floor row)) rows.replies;
          floors = put_floor job.now floor rows.floors;
        }) (state S.Store tx.old.conn.now)
        (state S.Store tx.new.conn.now) result }
    ensures stays { MayStay (state S.Store tx.old.conn.now) (state S.Store tx.new.conn.now) result }
    ensures survives { Survives (state S.Store tx.old.conn.now) (state S.Store tx.new.conn.now) (λ _. ⊥) }
{
    let floor = in_column(floor);
    statements::put_floor(tx, job.bytes(), floor)?;
    statements::drop_replies_below(tx, job.bytes(), floor)?;
    Ok(())
}

// Adds the deck of the op under its number.
fn add_deck<S: Alter>(tx: &mut Transaction<'_, S>, count: u64, deck: &[u8]) -> Result<(), Error>
    ensures same_reference { tx.new.conn.ghost_name ≡ tx.old.conn.ghost_name }
    ensures leads { MayLead
        (λ rows. record rows { decks = rows.decks ++ record { count = count; bytes = deck.now } ∷ [] })
        (state S.Store tx.old.conn.now) (state S.Store tx.new.conn.now) result }
    ensures stays { MayStay (state S.Store tx.old.conn.now) (state S.Store tx.new.conn.now) result }
    ensures survives { Survives (state S.Store tx.old.conn.now) (state S.Store tx.new.conn.now) (λ _. ⊥) }
{
    let Some(count) = fits_column(count) else {
        return Err(Error::IntegralValueOutOfRange(0));
    };
    statements::add_deck(tx, count, deck)?;
    Ok(())
}

// Adds the deck under its number, and replaces the statuses.
fn activate_deck<S: Alter>(
    tx: &mut Transaction<'_, S>,
    count: u64,
    deck: &[u8],
    statuses: &[StatusRow],
) -> Result<(), Error>
    requires { list_all (λ row. has_status row.target) statuses.now ≡ true }
    ensures same_reference { tx.new.conn.ghost_name ≡ tx.old.conn.ghost_name }
    ensures leads { MayLead
        (λ rows. record rows {
          decks = rows.decks ++ record { count = count; bytes = deck.now } ∷ [];
          statuses = statuses.now;
        }) (state S.Store tx.old.conn.now) (state S.Store tx.new.conn.now) result }
    ensures stays { MayStay (state S.Store tx.old.conn.now) (state S.Store tx.new.conn.now) result }
    ensures survives { Survives (state S.Store tx.old.conn.now) (state S.Store tx.new.conn.now) (λ _. ⊥) }
{
    replace_statuses(tx, statuses)?;
    add_deck(tx, count, deck)
}

// Adds the deck of the op under its number, and replaces the statuses.
fn activate<S: Alter>(
    tx: &mut Transaction<'_, S>,
    count: u64,
    op: &Op,
    statuses: &[StatusRow],
) -> Result<(), Error>
    requires deck { IsSome (deck_of op.now) }
    requires statuses { list_all (λ row. has_status row.target) statuses.now ≡ true }
    ensures same_reference { tx.new.conn.ghost_name ≡ tx.old.conn.ghost_name }
    ensures leads { MayLead (λ rows. record rows {
      decks = rows.decks ++ deck_rows count (deck_of op.now);
      statuses = statuses.now;
    }) (state S.Store tx.old.conn.now) (state S.Store tx.new.conn.now) result }
    ensures stays { MayStay (state S.Store tx.old.conn.now) (state S.Store tx.new.conn.now) result }
    ensures survives { Survives (state S.Store tx.old.conn.now) (state S.Store tx.new.conn.now) (λ _. ⊥) }
{
    match op {
        Op::Activate(deck) => activate_deck(tx, count, deck.get().as_slice(), statuses),
        _ => unreachable!(),
    }
}
