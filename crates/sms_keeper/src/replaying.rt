//! What an effect does to each table.
ghost use Rattle.std.specs.Prelude.{◌≡◌, ◌++◌, OnOk, filter, not, map};
ghost use Rattle.std.specs.List.{list_any};
ghost use Rattle.sms_keeper.specs.Suits.{deck_of};
ghost use Rattle.sms_keeper.specs.Tables.{without_set, is_reply_below, put_set, put_floor, is_below_floor, row_with};
ghost use Rattle.sms_keeper.specs.Tables.{same_target, deck_rows, is_floor_of};

use crate::deck_row::DeckRow;
use crate::floor::Floor;
use crate::kept_row::KeptRow;
use crate::status_row::StatusRow;
use desk_common::Shared;
use dsn_mask::{Dsn, Name};
use sms_construct::{DataSet, Op, RequestNumber, Status, Target};
use std::alloc::AllocError;

/// Drops the data sets of this name.
pub fn drop_set(sets: &mut Vec<Shared<DataSet>>, dsn: &Dsn)
    ensures { sets.new.items ≡ without_set dsn.now sets.old.items }
{
    sets.retain(|set| set.get().dsn != *dsn);
}

/// Puts a data set in the place of the one of its name, or adds it.
pub fn put_set(sets: &mut Vec<Shared<DataSet>>, set: &Shared<DataSet>) -> Result<(), AllocError>
    ensures { OnOk result (sets.new.items ≡ put_set set.now sets.old.items) }
{
    let shared = set.share()?;
    drop_set(sets, &set.get().dsn);
    match sets.push(shared) {
        Ok(()) => Ok(()),
        Err(_) => Err(AllocError),
    }
}

/// Drops the replies of a job that are below a floor.
pub fn drop_replies(replies: &mut Vec<KeptRow>, job: &Name, floor: u32)
    ensures { replies.new.items ≡ filter (λ row. not (is_reply_below job.now floor row)) replies.old.items }
{
    replies.retain(|row| !(row.job == *job && row.number.get() < floor));
}

fn drop_floor(floors: &mut Vec<Floor>, job: &Name)
    ensures { floors.new.items ≡ filter (λ row. not (is_floor_of job.now row)) floors.old.items }
{
    floors.retain(|row| row.job != *job);
}

/// Puts a floor in the place of the job's, or adds it.
pub fn put_floor(floors: &mut Vec<Floor>, job: Name, floor: u32) -> Result<(), AllocError>
    ensures { OnOk result (floors.new.items ≡ put_floor job floor floors.old.items) }
{
    drop_floor(floors, &job);
    match floors.push(Floor { job, floor }) {
        Ok(()) => Ok(()),
        Err(_) => Err(AllocError),
    }
}

/// Whether the number is below a floor of the job.
pub fn is_below(floors: &[Floor], job: &Name, number: RequestNumber) -> bool
    ensures { result ≡ list_any (is_below_floor job.now number) floors.now }
{
    floors
        .iter()
        .any(|row| row.job == *job && number.get() < row.floor)
}

fn is_same(target: &Target, other: &Target) -> bool
    ensures { result ≡ same_target target.now other.now }
{
    match (target, other) {
        (Target::Group(group), Target::Group(other)) => group == other,
        (Target::Volume(volser), Target::Volume(other)) => volser == other,
        (Target::Set(dsn), Target::Set(other)) => dsn == other,
        _ => false,
    }
}

fn set_one(row: &mut StatusRow, target: &Target, status: Status)
    ensures { row.new ≡ row_with target.now status row.old }
{
    if is_same(&row.target, target) {
        row.status = status;
    }
}

/// Sets the status of a target where it has a row.
pub fn set_status(rows: &mut [StatusRow], target: &Target, status: Status)
    ensures { rows.new ≡ map (row_with target.now status) rows.old }
{
    for row in rows.iter_mut() {
        set_one(row, target, status);
    }
}

/// Adds the deck of an op that activates one.
pub fn add_deck(decks: &mut Vec<DeckRow>, count: u64, op: &Op) -> Result<(), AllocError>
    ensures { OnOk result (decks.new.items ≡ decks.old.items ++ deck_rows count (deck_of op.now)) }
{
    let Op::Activate(deck) = op else {
        return Ok(());
    };
    let bytes = deck.share()?;
    match decks.push(DeckRow { count, bytes }) {
        Ok(()) => Ok(()),
        Err(_) => Err(AllocError),
    }
}
