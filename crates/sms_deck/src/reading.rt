//! From the bytes of a deck to its configuration.
ghost use Rattle.std.specs.Prelude.{◌≡◌, None, Some, IfErr, IfOk};
ghost use Rattle.toml.specs.Data.{no_members};
ghost use Rattle.toml.specs.View.{table_view};
ghost use Rattle.desk_common.specs.Exact.{IsExact, MayRefuse};
ghost use Rattle.sms_construct.specs.Configuration.{IsConfiguration};
ghost use Rattle.deck_meaning.specs.Places.{places_of};
ghost use Rattle.deck_meaning.specs.Reading.{Configures, IsRead, MeansTable, TellsFirstFault, TellsForm, TellsTable};
ghost use Rattle.deck_meaning.specs.Reading.{configuration_of, form_fault};

use crate::constructs::{data_classes, groups, management_classes, name_at, storage_classes};
use crate::places::{check_total, first_twice, places_of, volumes_in};
use crate::rows::table_or;
use crate::sources::{Sources, check_all_assigned, read_sources};
use crate::top_table::check_tables;
use acs_tree::Checked;
use deck_meaning::{Compiled, Config, ConfigParts, DeckErr, Place};
use desk_common::MAX_DECK;
use dsn_mask::Volser;
use sms_construct::{DeckText, Fault, Path};
use std::alloc::{AllocError, Global};
use std::collections::BTreeMap;
use toml::Table;

// The volumes of a deck at their places, or the first fault of its tables.
fn check_form(alloc: Global, top: &Table, none: &Table) -> Result<BTreeMap<Volser, Place>, DeckErr>
    requires { table_view none.now ≡ no_members }
    ensures places { IfOk result (λ places. places.entries ≡ places_of (table_view top.now)) }
    ensures ok { IfOk result (λ places. form_fault (table_view top.now) ≡ None) }
    ensures err { IfErr result (TellsForm (table_view top.now)) }
{
    if let Err(fault) = check_tables(top) {
        return Err(DeckErr::Fault(fault));
    }
    if let Err(fault) = check_total(top) {
        return Err(DeckErr::Fault(fault));
    }
    let Ok(places) = places_of(alloc, table_or(top, "storgroup", none)) else {
        return Err(DeckErr::NoMemory);
    };
    match first_twice(&places) {
        Some(volser) => Err(DeckErr::Fault(Fault::TwoGroups(volser))),
        None => Ok(places),
    }
}

fn compile_source(alloc: Global, source: Option<Checked>) -> Result<Option<Compiled>, AllocError>
    ensures { IfOk result (λ compiled. compiled ≡ source) }
{
    match source {
        Some(source) => Ok(Some(Compiled::new(alloc, source)?)),
        None => Ok(None),
    }
}

// The configuration of a deck that has no fault.
fn build(
    alloc: Global,
    deck: &DeckText,
    top: &Table,
    none: &Table,
    places: &BTreeMap<Volser, Place>,
    sources: Sources,
) -> Result<Config, AllocError>
    requires none { table_view none.now ≡ no_members }
    requires places { places.now.entries ≡ places_of (table_view top.now) }
    requires form { IsConfiguration (configuration_of deck.now (table_view top.now) sources) }
    ensures { IfOk result (λ config. config ≡ configuration_of deck.now (table_view top.now) sources) }
{
    let Sources {
        dataclas,
        storclas,
        mgmtclas,
        storgrp,
    } = sources;
    Ok(Config::new(ConfigParts {
        deck: deck.share()?,
        system: name_at(top, "system"),
        sysplex: name_at(top, "sysplex"),
        data_classes: data_classes(alloc, table_or(top, "dataclass", none))?,
        storage_classes: storage_classes(alloc, table_or(top, "storclass", none))?,
        management_classes: management_classes(alloc, table_or(top, "mgmtclass", none))?,
        groups: groups(alloc, table_or(top, "storgroup", none))?,
        volumes: volumes_in(alloc, places)?,
        dataclas: compile_source(alloc, dataclas)?,
        storclas: compile_source(alloc, storclas)?,
        mgmtclas: compile_source(alloc, mgmtclas)?,
        storgrp: compile_source(alloc, storgrp)?,
    }))
}

// The configuration of the deck with this table, or the table's first fault.
fn read_table(alloc: Global, deck: &DeckText, top: &Table) -> Result<Config, DeckErr>
    requires { MeansTable deck.now (table_view top.now) }
    ensures ok { IfOk result (IsRead deck.now (table_view top.now)) }
    ensures err { IfErr result (TellsTable (table_view top.now)) }
{
    let none = Table::new(alloc);
    let places = match check_form(alloc, top, &none) {
        Ok(places) => places,
        Err(err) => return Err(err),
    };
    let sources = match read_sources(alloc, top) {
        Ok(sources) => sources,
        Err(err) => return Err(err),
    };
    if let Err(fault) = check_all_assigned(top, &none, &sources) {
        return Err(DeckErr::Fault(fault));
    }
    match build(alloc, deck, top, &none, &places, sources) {
        Ok(config) => Ok(config),
        Err(_) => Err(DeckErr::NoMemory),
    }
}

// The configuration of a deck, or its first fault.
fn read(alloc: Global, deck: &DeckText) -> Result<Config, DeckErr>
    ensures ok { IfOk result (Configures deck.now) }
    ensures err { IfErr result (MayRefuse (TellsFirstFault deck.now) (Some DeckErr.NoMemory)) }
{
    let bytes = deck.get().as_slice();
    if bytes.len() > MAX_DECK {
        return Err(DeckErr::Fault(Fault::TooMany(Path::new(b"deck"))));
    }
    match toml::table_from_slice(alloc, bytes) {
        Ok(top) => read_table(alloc, deck, &top),
        Err(error) if error.is_memory() => Err(DeckErr::NoMemory),
        Err(_) => Err(DeckErr::Fault(Fault::NotToml)),
    }
}

/// The configuration of a deck, or its first fault (docs/manual/deck.md, "Order of faults"). The configuration shares
/// the deck's bytes.
#[tactic(auto, using(crate::proofs::ExactLemmas::read_exactly))]
pub fn read_deck(alloc: Global, deck: &DeckText) -> Result<Config, DeckErr>
    ensures ok { IfOk result (Configures deck.now) }
    ensures err { IfErr result (MayRefuse (TellsFirstFault deck.now) (Some DeckErr.NoMemory)) }
    ensures exactly { IsExact (Configures deck.now) (TellsFirstFault deck.now) (Some DeckErr.NoMemory) result }
{
    read(alloc, deck)
}
