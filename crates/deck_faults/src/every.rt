//! Every fault of a deck.
ghost use Rattle.std.specs.Prelude.{◌≡◌, ◌≤◌, ◌∷◌, [], IfErr, IfOk, OnOk, length};
ghost use Rattle.toml.specs.Data.{no_members};
ghost use Rattle.toml.specs.View.{table_view};
ghost use Rattle.desk_common.specs.Limits.{most_deck_bytes};
ghost use Rattle.deck_meaning.specs.Reading.{MeansTable};
ghost use Rattle.deck_faults.specs.Faults.{HasFaults, HasTableFaults, form_faults};
ghost use Rattle.deck_faults.specs.Limits.{most_faults};
ghost use Rattle.deck_faults.specs.Inner.Telling.{TellFaults, TellsUnread, put_all};

use crate::places::{check_total, places_of, tell_twice};
use crate::rows::table_or;
use crate::sources::{read_sources, tell_assigned};
use crate::telling::{tell, tell_first};
use crate::top_table::tell_tables;
use deck_meaning::DeckErr;
use desk_common::{Items, MAX_DECK};
use sms_construct::{Fault, Path};
use std::alloc::{AllocError, Global};
use toml::Table;

// Tells the faults of a deck's tables.
#[tactic(auto, using(crate::proofs::TellingLemmas::put_append))]
fn tell_form(
    alloc: Global,
    told: &mut Vec<Fault>,
    top: &Table,
    none: &Table,
) -> Result<(), AllocError>
    requires { table_view none.now ≡ no_members }
    ensures { OnOk result (told.new.items ≡ put_all told.old.items (form_faults (table_view top.now))) }
{
    tell_tables(told, top)?;
    tell_first(told, check_total(top))?;
    let places = places_of(alloc, table_or(top, "storgroup", none))?;
    tell_twice(told, &places)
}

// Tells the faults of a deck's table.
fn tell_table(alloc: Global, told: &mut Vec<Fault>, top: &Table) -> Result<(), AllocError>
    ensures { OnOk result (TellFaults (table_view top.now) told.old.items told.new.items) }
{
    let none = Table::new(alloc);
    tell_form(alloc, told, top, &none)?;
    let sources = read_sources(alloc, told, top)?;
    tell_assigned(told, top, &none, &sources)
}

// The faults of the deck with this table.
fn table_faults(alloc: Global, deck: &[u8], top: &Table) -> Result<Vec<Fault>, AllocError>
    requires means { MeansTable deck.now (table_view top.now) }
    requires fits { length deck.now ≤ most_deck_bytes }
    ensures { IfOk result (λ told. HasTableFaults deck.now told.items) }
{
    let mut told = Vec::new(alloc);
    tell_table(alloc, &mut told, top)?;
    Ok(told)
}

// One fault alone.
fn one_fault(alloc: Global, fault: Fault) -> Result<Vec<Fault>, AllocError>
    ensures { IfOk result (λ told. told.items ≡ fault ∷ []) }
{
    let mut told = Vec::new(alloc);
    told.push(fault)?;
    Ok(told)
}

// The table of a deck, or why it can't be read as one.
fn read_top(alloc: Global, deck: &[u8]) -> Result<Table, DeckErr>
    ensures means { IfOk result (λ top. MeansTable deck.now (table_view top)) }
    ensures fits { IfOk result (λ _. length deck.now ≤ most_deck_bytes) }
    ensures err { IfErr result (TellsUnread deck.now) }
{
    if deck.len() > MAX_DECK {
        return Err(DeckErr::Fault(Fault::TooMany(Path::new(b"deck"))));
    }
    match toml::table_from_slice(alloc, deck) {
        Ok(top) => Ok(top),
        Err(error) if error.is_memory() => Err(DeckErr::NoMemory),
        Err(_) => Err(DeckErr::Fault(Fault::NotToml)),
    }
}

// The faults of a deck.
fn faults_told(alloc: Global, deck: &[u8]) -> Result<Vec<Fault>, AllocError>
    ensures { IfOk result (λ told. HasFaults deck.now told.items) }
{
    match read_top(alloc, deck) {
        Ok(top) => table_faults(alloc, deck, &top),
        Err(DeckErr::Fault(fault)) => one_fault(alloc, fault),
        Err(DeckErr::NoMemory) => Err(AllocError),
    }
}

/// The faults of a deck, of each table and each routine the first, in the order in which `read_deck` of sms_deck looks
/// for its one; 100 at most, and none where the deck is a configuration (docs/manual/tool.md, "Every fault of a deck").
/// What follows from a fault in the same table, a wrong version or an unknown key isn't among them.
pub fn every_fault(alloc: Global, deck: &[u8]) -> Result<Items<Fault>, AllocError>
    ensures faults { IfOk result (HasFaults deck.now) }
    ensures few { IfOk result (λ faults. length faults ≤ most_faults) }
{
    Ok(Items::from_vec(faults_told(alloc, deck)?))
}
