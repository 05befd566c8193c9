//! What a desk has before its journal.
ghost use Rattle.std.specs.Prelude.{◌≡◌};
ghost use Rattle.desk_law.specs.Records.{empty_opening};

use deck_meaning::Config;
use desk_common::Items;
use sms_keeper::Rows;
use std::alloc::Global;
use std::marker::Model;
use std::snapshot::Snapshot;

/// What a desk begins with: recorded rows, the configuration of the last deck, and the place before the first
/// entry (docs/manual/records.md).
#[derive(Drop)]
pub struct Opening {
    pub rows: Rows,
    pub config: Option<Config>,
    pub base: u64,
}

impl Model for Opening {
    ghost use Rattle.acs_tree.specs.contracts.routine.Form as form;
    ghost use Rattle.std.specs.Coded.{codes};
    ghost use Rattle.desk_law.specs.State.{Opening as OpeningView};

    ghost Value = { OpeningView };

    ghost coded = { Prim.hlevel (codes, form.the_row.coded) };

    ghost view = { λ o. record { rows = o.rows; config = o.config; base = o.base } };
}

impl Opening {
    /// No rows, no configuration, and places from 1. It takes no memory.
    pub fn empty(alloc: Global) -> Self
        ensures { result ≡ empty_opening }
    {
        Opening {
            rows: Rows {
                sets: Items::new(alloc),
                replies: Items::new(alloc),
                decks: Items::new(alloc),
                statuses: Items::new(alloc),
                floors: Items::new(alloc),
            },
            config: None,
            base: 0,
        }
    }

    /// The empty opening as contracts see it, for one who keeps no more of it. It takes no memory.
    pub fn empty_snapshot(alloc: Global) -> Snapshot<Self>
        ensures { result.value ≡ empty_opening }
    {
        Snapshot::of(&Opening::empty(alloc))
    }
}
