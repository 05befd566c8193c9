//! Tests 2 and 3: the decks.
ghost use Rattle.std.specs.Prelude.{IfErr, IfOk};
ghost use Rattle.desk_law.specs.Decked.{AreNumbered, IsLastActive};
ghost use Rattle.sms_open.specs.Tests.{AreCounted};
ghost use Rattle.sms_open.specs.Verdicts.{RefusesDeck, Tells};

use crate::rows_err::RowsErr;
use deck_meaning::{Config, DeckErr};
use sms_deck::read_deck;
use sms_keeper::{DeckRow, Rows};
use std::alloc::Global;

fn are_numbered(decks: &[DeckRow]) -> bool
    ensures { Tells (AreNumbered 0 decks.now) result }
{
    let mut before: u64 = 0;
    for deck in decks {
        if deck.count == 0 || deck.count - 1 != before {
            return false;
        }
        before = deck.count;
    }
    true
}

/// Whether the decks are counted from 1 in order, and no data set and no status stands where there is none.
pub fn are_counted(rows: &Rows) -> bool
    ensures { Tells (AreCounted rows.now) result }
{
    if !are_numbered(rows.decks.as_slice()) {
        return false;
    }
    if !rows.decks.is_empty() {
        return true;
    }
    rows.sets.is_empty() && rows.statuses.is_empty()
}

/// What the last deck configures, none without a deck; or that it has a fault; or want of memory.
pub fn last_config(alloc: Global, decks: &[DeckRow]) -> Result<Option<Config>, RowsErr>
    ensures ok { IfOk result (IsLastActive decks.now) }
    ensures err { IfErr result (RefusesDeck decks.now) }
{
    let Some(deck) = decks.last() else {
        return Ok(None);
    };
    match read_deck(alloc, &deck.bytes) {
        Ok(config) => Ok(Some(config)),
        Err(DeckErr::Fault(_)) => Err(RowsErr::Unsound(3)),
        Err(DeckErr::NoMemory) => Err(RowsErr::NoMemory),
    }
}
