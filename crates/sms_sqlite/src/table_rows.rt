// The rows of the five tables.
ghost use Rattle.std.specs.Prelude.{◌≡◌, slice_get};
ghost use Rattle.desk_common.specs.Limits.{most_number, up_to};
ghost use Rattle.sms_construct.specs.Quantities.{request_number_of};
ghost use Rattle.sms_sqlite.specs.Values.{all_statuses, target_of};

use crate::columns::{bytes_at, number_at, text_at};
use crate::table_row::TableRow;
use desk_common::{Items, Shared};
use dsn_mask::{Name, Volser};
use sms_construct::{DataSet, RequestNumber, Status, Target};
use sms_keeper::{DeckRow, Floor, KeptRow, StatusRow};
use sms_records::{RecordErr, read_reply, read_request, read_set};
use sqlite::Row;
use std::alloc::Global;

impl TableRow for Shared<DataSet> {
    ghost use Rattle.sms_sqlite.specs.Values.{set_in};

    ghost meaning = { set_in };

    #[tactic(auto, unfolding(crate::specs::Values::set_in))]
    fn read_row(alloc: Global, row: &Row) -> Result<Self, RecordErr> {
        let dsn = text_at(row, 0)?;
        let bytes = bytes_at(row, 1)?;
        let set = read_set(alloc, bytes)?;
        if set.dsn.bytes() != dsn {
            return Err(RecordErr::Bad);
        }
        Ok(Shared::new(alloc, set)?)
    }
}

// The request number of this value.
fn request_number(number: u64) -> Option<RequestNumber>
    ensures { result ≡ request_number_of number }
{
    match u32::try_from(number) {
        Ok(number) => RequestNumber::new(number),
        Err(_) => None,
    }
}

impl TableRow for KeptRow {
    ghost use Rattle.sms_sqlite.specs.Values.{reply_in};

    ghost meaning = { reply_in };

    #[tactic(auto, unfolding(crate::specs::Values::reply_in))]
    fn read_row(alloc: Global, row: &Row) -> Result<Self, RecordErr> {
        let Some(job) = Name::new(text_at(row, 0)?) else {
            return Err(RecordErr::Bad);
        };
        let Some(number) = request_number(number_at(row, 1)?) else {
            return Err(RecordErr::Bad);
        };
        let place = number_at(row, 2)?;
        let request = read_request(alloc, bytes_at(row, 3)?)?;
        let reply = read_reply(alloc, bytes_at(row, 4)?)?;
        Ok(KeptRow {
            job,
            number,
            place,
            request,
            reply,
        })
    }
}

impl TableRow for DeckRow {
    ghost use Rattle.sms_sqlite.specs.Values.{shown_deck_in};

    ghost meaning = { shown_deck_in };

    #[tactic(auto, unfolding(crate::specs::Values::shown_deck_in))]
    fn read_row(alloc: Global, row: &Row) -> Result<Self, RecordErr> {
        let count = number_at(row, 0)?;
        let bytes = Items::from_slice(alloc, bytes_at(row, 1)?)?;
        Ok(DeckRow {
            count,
            bytes: Shared::new(alloc, bytes)?,
        })
    }
}

// What a status of this kind and name is of.
fn target_of(kind: u64, name: &[u8]) -> Option<Target>
    ensures { result ≡ target_of kind name.now }
{
    if kind == 0 {
        return Name::new(name).map(Target::Group);
    }
    if kind == 1 {
        return Volser::new(name).map(Target::Volume);
    }
    None
}

// The status with this number.
fn status_of(number: u64) -> Option<Status>
    ensures { result ≡ slice_get all_statuses number }
{
    match number {
        0 => Some(Status::Enable),
        1 => Some(Status::NotCon),
        2 => Some(Status::DisAll),
        3 => Some(Status::DisNew),
        4 => Some(Status::QuiAll),
        5 => Some(Status::QuiNew),
        _ => None,
    }
}

impl TableRow for StatusRow {
    ghost use Rattle.sms_sqlite.specs.Values.{status_in};

    ghost meaning = { status_in };

    #[tactic(auto, unfolding(crate::specs::Values::status_in))]
    fn read_row(_alloc: Global, row: &Row) -> Result<Self, RecordErr> {
        let kind = number_at(row, 0)?;
        let Some(target) = target_of(kind, text_at(row, 1)?) else {
            return Err(RecordErr::Bad);
        };
        let Some(status) = status_of(number_at(row, 2)?) else {
            return Err(RecordErr::Bad);
        };
        Ok(StatusRow { target, status })
    }
}

// The floor of this value.
fn floor_of(number: u64) -> Option<u32>
    ensures { result ≡ up_to most_number number }
{
    match u32::try_from(number) {
        Ok(floor) => Some(floor),
        Err(_) => None,
    }
}

impl TableRow for Floor {
    ghost use Rattle.sms_sqlite.specs.Values.{floor_in};

    ghost meaning = { floor_in };

    #[tactic(auto, unfolding(crate::specs::Values::floor_in))]
    fn read_row(_alloc: Global, row: &Row) -> Result<Self, RecordErr> {
        let Some(job) = Name::new(text_at(row, 0)?) else {
            return Err(RecordErr::Bad);
        };
        let Some(floor) = floor_of(number_at(row, 1)?) else {
            return Err(RecordErr::Bad);
        };
        Ok(Floor { job, floor })
    }
}
