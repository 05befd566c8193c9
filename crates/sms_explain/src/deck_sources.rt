//! The texts of a deck's routines.
ghost use Rattle.std.specs.Prelude.{◌≡◌, IfOk, option_map};
ghost use Rattle.std.specs.Option.{option_and_then};
ghost use Rattle.toml.specs.Data.{as_table, get_member};
ghost use Rattle.toml.specs.View.{table_view, view};
ghost use Rattle.deck_meaning.specs.Outcomes.{source_of};
ghost use Rattle.sms_explain.specs.DeckTexts.{AreSources, IsSourceOf, source_in};

use acs_telling::Source;
use acs_tree::Kind;
use deck_meaning::MAX_ROUTINE;
use sms_construct::{DeckText, key_of};
use std::alloc::{AllocError, Global};
use toml::{Table, Value};

/// The texts of a deck's routines, with their tokens at their places; of a routine that the deck leaves out no text.
#[derive(Drop)]
pub struct DeckSources {
    pub dataclas: Source,
    pub storclas: Source,
    pub mgmtclas: Source,
    pub storgrp: Source,
}

impl DeckSources {
    /// The texts of the routines of a deck that has no fault.
    pub fn of(alloc: Global, deck: &[u8]) -> Result<Self, AllocError>
        ensures { IfOk result (AreSources deck.now) }
    {
        let Ok(top) = toml::table_from_slice(alloc, deck) else {
            return Err(AllocError);
        };
        Ok(DeckSources {
            dataclas: source(alloc, &top, Kind::DataClas)?,
            storclas: source(alloc, &top, Kind::StorClas)?,
            mgmtclas: source(alloc, &top, Kind::MgmtClas)?,
            storgrp: source(alloc, &top, Kind::StorGrp)?,
        })
    }

    /// The text of the routine of a kind.
    pub fn of_kind(&self, kind: Kind) -> &Source
        ensures { result.now ≡ source_in self.now kind }
    {
        match kind {
            Kind::DataClas => &self.dataclas,
            Kind::StorClas => &self.storclas,
            Kind::MgmtClas => &self.mgmtclas,
            Kind::StorGrp => &self.storgrp,
        }
    }
}

/// The texts of the routines of a deck, as a script holds it, that has no fault.
pub fn sources_of(alloc: Global, deck: &DeckText) -> Result<DeckSources, AllocError>
    ensures { IfOk result (AreSources deck.now) }
{
    let sources = DeckSources::of(alloc, deck.get().as_slice())?;
    Ok(sources)
}

fn source(alloc: Global, top: &Table, kind: Kind) -> Result<Source, AllocError>
    ensures { IfOk result (IsSourceOf (source_of kind (table_view top.now))) }
{
    let Some(text) = find_text(top, kind) else {
        return Ok(Source::none(alloc));
    };
    if text.len() > MAX_ROUTINE {
        return Err(AllocError);
    }
    Source::new(alloc, text.as_bytes()).map_err(|_| AllocError)
}

fn find_text(top: &Table, kind: Kind) -> Option<&str>
    ensures { option_map (λ s. s.now) result ≡ source_of kind (table_view top.entry.now) }
{
    match find_table(top, "routine") {
        Some(routines) => match value_at(routines, key_of(kind)) {
            Some(value) => value.as_str(),
            None => None,
        },
        None => None,
    }
}

fn find_table<'a>(keys: &'a Table, key: &str) -> Option<&'a Table>
    ensures { option_map (λ t. table_view t.now) result ≡ option_and_then as_table
        (get_member key.now (table_view keys.entry.now)) }
{
    match value_at(keys, key) {
        Some(value) => value.as_table(),
        None => None,
    }
}

fn value_at<'a>(keys: &'a Table, key: &str) -> Option<&'a Value>
    ensures { option_map (λ v. view v.now) result ≡ get_member key.now (table_view keys.entry.now) }
{
    keys.get(key)
}
