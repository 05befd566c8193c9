//! The tables that a list of changes comes to.
ghost use Rattle.std.specs.Prelude.{◌≡◌, ◌++◌, OnOk};
ghost use Rattle.sms_keeper.specs.Loading.{AreOrdered};
ghost use Rattle.sms_keeper.specs.Tables.{AreSame, no_rows, with_change, sets_with, statuses_with, decks_added};
ghost use Rattle.sms_keeper.specs.Tables.{floors_with, keep_row, replies_left, row_of};

use crate::change::Change;
use crate::deck_row::DeckRow;
use crate::effect::Effect;
use crate::floor::Floor;
use crate::kept_row::KeptRow;
use crate::replaying::{
    add_deck, drop_replies, drop_set, is_below, put_floor, put_set, set_status,
};
use crate::rows::Rows;
use crate::sorting::{sort_decks, sort_floors, sort_replies, sort_sets, sort_statuses};
use crate::status_row::StatusRow;
use desk_common::{Items, Shared};
use sms_construct::{DataSet, Op};
use std::alloc::{AllocError, Global};
use std::marker::Model;

/// The tables while changes are made to them.
#[derive(Drop)]
pub struct Replay {
    alloc: Global,
    sets: Vec<Shared<DataSet>>,
    replies: Vec<KeptRow>,
    decks: Vec<DeckRow>,
    statuses: Vec<StatusRow>,
    floors: Vec<Floor>,
}

impl Model for Replay {
    ghost use Rattle.sms_keeper.specs.declared.rows.Rows.{Rows};

    ghost Value = { Rows };

    ghost view = { λ r. record {
      sets = r.sets.items;
      replies = r.replies.items;
      decks = r.decks.items;
      statuses = r.statuses.items;
      floors = r.floors.items;
    } };
}

impl Replay {
    pub fn new(alloc: Global) -> Self
        ensures { result ≡ no_rows }
    {
        Replay {
            alloc,
            sets: Vec::new(alloc),
            replies: Vec::new(alloc),
            decks: Vec::new(alloc),
            statuses: Vec::new(alloc),
            floors: Vec::new(alloc),
        }
    }

    /// Makes a change; where memory is wanting part of it may be made.
    pub fn make(&mut self, change: &Change) -> Result<(), AllocError>
        ensures { OnOk result (self.new ≡ with_change self.old change.now) }
    {
        self.make_effect(&change.request.op, &change.effect)?;
        self.keep(change)
    }

    fn make_effect(&mut self, op: &Op, effect: &Effect) -> Result<(), AllocError>
        ensures sets { OnOk result (self.new.sets ≡ sets_with effect.now self.old.sets) }
        ensures replies { OnOk result (self.new.replies ≡ replies_left effect.now self.old.replies) }
        ensures decks { OnOk result (self.new.decks ≡ self.old.decks ++ decks_added op.now effect.now) }
        ensures statuses { OnOk result (self.new.statuses ≡ statuses_with effect.now self.old.statuses) }
        ensures floors { OnOk result (self.new.floors ≡ floors_with effect.now self.old.floors) }
    {
        match effect {
            Effect::Nothing => Ok(()),
            Effect::PutSet(set) => put_set(&mut self.sets, set),
            Effect::DropSet(dsn) => {
                drop_set(&mut self.sets, dsn);
                Ok(())
            }
            Effect::Activated { count, statuses } => {
                self.statuses = Vec::from_slice(self.alloc, statuses.as_slice())?;
                add_deck(&mut self.decks, *count, op)
            }
            Effect::SetStatus { target, status } => {
                set_status(&mut self.statuses, target, *status);
                Ok(())
            }
            Effect::Floor { job, floor } => {
                drop_replies(&mut self.replies, job, *floor);
                put_floor(&mut self.floors, *job, *floor)
            }
        }
    }

    fn keep(&mut self, change: &Change) -> Result<(), AllocError>
        ensures sets { OnOk result (self.new.sets ≡ self.old.sets) }
        ensures replies { OnOk result (self.new.replies
            ≡ keep_row self.old.floors (row_of change.now) self.old.replies) }
        ensures decks { OnOk result (self.new.decks ≡ self.old.decks) }
        ensures statuses { OnOk result (self.new.statuses ≡ self.old.statuses) }
        ensures floors { OnOk result (self.new.floors ≡ self.old.floors) }
    {
        if is_below(&self.floors, &change.request.job, change.request.number) {
            return Ok(());
        }
        let row = KeptRow {
            job: change.request.job,
            number: change.request.number,
            place: change.place,
            request: change.request.copy()?,
            reply: change.reply.copy()?,
        };
        match self.replies.push(row) {
            Ok(()) => Ok(()),
            Err(_) => Err(AllocError),
        }
    }

    /// Puts each table in the order of its keys; where memory is wanting some are.
    pub fn sort(&mut self) -> Result<(), AllocError>
        ensures same { AreSame self.new self.old }
        ensures ordered { OnOk result (AreOrdered self.new) }
    {
        sort_sets(&mut self.sets)?;
        sort_replies(&mut self.replies)?;
        sort_decks(&mut self.decks)?;
        sort_statuses(&mut self.statuses)?;
        sort_floors(&mut self.floors)
    }

    /// The tables.
    pub fn into_rows(self) -> Rows
        ensures { result ≡ self }
    {
        Rows {
            sets: Items::from_vec(self.sets),
            replies: Items::from_vec(self.replies),
            decks: Items::from_vec(self.decks),
            statuses: Items::from_vec(self.statuses),
            floors: Items::from_vec(self.floors),
        }
    }
}
