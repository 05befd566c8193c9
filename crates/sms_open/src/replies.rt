//! Test 6: the replies and the floors.
ghost use Rattle.std.specs.Prelude.{◌≡◌, ◌≤◌, ℕ, List, IfOk};
ghost use Rattle.std.specs.List.{AllByRecursion};
ghost use Rattle.sms_keeper.specs.declared.floor.Floor.{Floor as FloorOf};
ghost use Rattle.sms_keeper.specs.Log.{floor_in};
ghost use Rattle.desk_law.specs.Kept.{floor_told, greatest_floor};
ghost use Rattle.desk_law.specs.KeptRows.{IsKeptRow};
ghost use Rattle.sms_open.specs.Tests.{AreSoundReplies, IsSoundReply, most_place};
ghost use Rattle.sms_open.specs.Verdicts.{Tells};

use crate::doubles::places_apart;
use sms_construct::{Fate, Reply};
use sms_keeper::{Floor, KeptRow, RequestLog, Rows};
use std::alloc::{AllocError, Global};

const MOST_PLACE: u64 = 4_611_686_018_427_387_904;

// A log that knows the floors.
fn floors_logged(alloc: Global, floors: &[Floor]) -> Result<RequestLog, AllocError>
    ensures { IfOk result (λ log. (job : List ℕ) → floor_in job log.floors ≡ greatest_floor job floors.now) }
{
    let mut log = RequestLog::new(alloc);
    for floor in floors {
        log.reserve()?;
        log.purge(&floor.job, floor.floor);
    }
    Ok(log)
}

fn floors_stand(floors: &[Floor]) -> bool
    ensures { Tells (AllByRecursion (λ floor. 1 ≤ floor.floor) floors.now) result }
{
    for floor in floors {
        if floor.floor == 0 {
            return false;
        }
    }
    true
}

fn is_kept(row: &KeptRow) -> bool
    ensures { Tells (IsKeptRow most_place row.now) result }
{
    if row.reply.fate() != Fate::Kept {
        return false;
    }
    if row.job != row.request.job {
        return false;
    }
    if row.number != row.request.number {
        return false;
    }
    if row.place == 0 {
        return false;
    }
    row.place <= MOST_PLACE
}

// Whether a floor that the reply tells isn't above the one that is logged.
fn tells_low(log: &RequestLog, reply: &Reply) -> bool
    ensures { Tells (AllByRecursion (λ told. told.floor ≤ floor_in told.job log.now.floors) (floor_told reply.now))
        result }
{
    match reply {
        Reply::Purged { job, floor } => *floor <= log.floor(job),
        _ => true,
    }
}

fn is_sound(log: &RequestLog, row: &KeptRow) -> bool
    ensures { (floors : List FloorOf) → ((job : List ℕ) → floor_in job log.now.floors ≡ greatest_floor job floors) →
        Tells (IsSoundReply floors row.now) result }
{
    if !is_kept(row) {
        return false;
    }
    if row.number.get() < log.floor(&row.job) {
        return false;
    }
    tells_low(log, &row.reply)
}

fn each_is_sound(log: &RequestLog, replies: &[KeptRow]) -> bool
    ensures { (floors : List FloorOf) → ((job : List ℕ) → floor_in job log.now.floors ≡ greatest_floor job floors) →
        Tells (AllByRecursion (IsSoundReply floors) replies.now) result }
{
    for row in replies {
        if !is_sound(log, row) {
            return false;
        }
    }
    true
}

/// Whether each reply is one that a desk may have kept beside the floors, no two have one place, and no floor is 0; or
/// want of memory.
pub fn are_sound_replies(alloc: Global, rows: &Rows) -> Result<bool, AllocError>
    ensures { IfOk result (Tells (AreSoundReplies rows.now.replies rows.now.floors)) }
{
    let floors = rows.floors.as_slice();
    if !floors_stand(floors) {
        return Ok(false);
    }
    let log = floors_logged(alloc, floors)?;
    if !each_is_sound(&log, rows.replies.as_slice()) {
        return Ok(false);
    }
    places_apart(alloc, rows.replies.as_slice())
}
