//! Doors that several workers serve.
ghost use Rattle.std.specs.Prelude.{◌≡◌, ◌≤◌, [], All, IfOk, OnErr, map, vec_capacity, vec_len};
ghost use Rattle.sms_desk.specs.Seats.{IsJobOf};
ghost use Rattle.desk_common.specs.Limits.{most_workers};
ghost use Rattle.serve_calls.specs.OneHistory.{IsOneHistory};
ghost use Rattle.serve_calls.specs.ServeEnds.{AreServed};
ghost use Rattle.serve_calls.specs.Seen.{seen_door, seen_link};
ghost use Rattle.serve_calls.specs.Inner.Workers.{DidShifts};

use crate::manning::{hand_out, take_back};
use crate::served_doors::ServedDoors;
use crate::worker::Worker;
use crate::working::work_all;
use desk_common::Items;
use serve_door::{DoorEnd, Visits};
use sms_base::Accept;
use sms_core::Core;
use sms_desk::{Desk, Gate, JobSeat, JobSeats};
use sms_keeper::Keeper;
use std::alloc::{AllocError, Global};
use std::sync::Wait;
use std::thread::Threads;

/// Serves the desk of a new core to the links of the doors, at most `most` of each, by a worker at each door. Where
/// memory to begin is wanting no door is asked for a link.
pub fn serve_shared<
    A: Accept + Drop + Send,
    P: Keeper + Send,
    R: Threads + Wait + Sync,
    G: Gate + Sync,
>(
    alloc: Global,
    rt: &R,
    most: u32,
    doors: &mut Vec<A>,
    core: Core<P>,
    gate: &G,
) -> (Result<ServedDoors, AllocError>, Core<P>)
where
    A::Conn: Send,
    requires count { (2 ≤ vec_len doors.old) × (vec_len doors.old ≤ most_workers) }
    requires new { core.journal ≡ [] }
    ensures served { IfOk result.0 (λ found. AreServed
        (seen_link A.Conn.left A.Conn.reads A.Conn.read_faults A.Conn.taken A.Conn.write_faults)
        most
        (map (seen_door A.asked A.given A.ended A.door_faults A.link_faults A.waiting A.back) doors.old.items)
        (map (seen_door A.asked A.given A.ended A.door_faults A.link_faults A.waiting A.back) doors.new.items)
        found.visits found.ends.items) }
    ensures once { IfOk result.0 (λ found. IsOneHistory found.visits result.1.journal) }
    ensures opening { result.1.opening ≡ core.opening }
    ensures mark { result.1.mark ≡ core.mark }
    ensures unserved { OnErr result.0 ((doors.new ≡ doors.old) × (result.1 ≡ core)) }
{
    let Ok((workers, mut visits, mut ends)) = take_room(alloc, doors.len()) else {
        return (Err(AllocError), core);
    };
    match Desk::new(alloc, core, doors.len()) {
        Ok((desk, seats)) => {
            let JobSeats { mut jobs, room } = seats;
            serve_all(
                alloc,
                rt,
                most,
                &desk,
                &mut jobs,
                doors,
                workers,
                &mut visits,
                &mut ends,
                gate,
            );
            let (core, _numbers) = desk.close(JobSeats { jobs, room });
            let visits = Items::from_vec(visits);
            (Ok(ServedDoors { visits, ends }), core)
        }
        Err((core, _)) => (Err(AllocError), core),
    }
}

// Room for so many workers, and for what they tell.
fn take_room<A: Drop, P: Keeper>(
    alloc: Global,
    count: usize,
) -> Result<(Vec<Worker<A, P>>, Vec<Visits>, Vec<DoorEnd>), AllocError>
    ensures workers { IfOk result (λ room. (room.0.items ≡ []) × (vec_len room.0 ≡ 0) × (count ≤ vec_capacity room.0)) }
    ensures visits { IfOk result (λ room. (room.1.items ≡ []) × (vec_len room.1 ≡ 0) × (count ≤ vec_capacity room.1)) }
    ensures ends { IfOk result (λ room. (room.2.items ≡ []) × (vec_len room.2 ≡ 0) × (count ≤ vec_capacity room.2)) }
{
    let workers = Vec::with_capacity(alloc, count)?;
    let visits = Vec::with_capacity(alloc, count)?;
    let ends = Vec::with_capacity(alloc, count)?;
    Ok((workers, visits, ends))
}

// A worker at each door serves it, by the seat at the same place.
fn serve_all<A: Accept + Drop + Send, P: Keeper + Send, R: Threads + Wait + Sync, G: Gate + Sync>(
    alloc: Global,
    rt: &R,
    most: u32,
    desk: &Desk<P>,
    seats: &mut Vec<JobSeat<P>>,
    doors: &mut Vec<A>,
    mut workers: Vec<Worker<A, P>>,
    visits: &mut Vec<Visits>,
    ends: &mut Vec<DoorEnd>,
    gate: &G,
)
where
    A::Conn: Send,
    requires jobs { All (IsJobOf desk.now.lock.table.shared.table_id) seats.old.items }
    requires same { vec_len seats.old ≡ vec_len doors.old }
    requires workers { (workers.items ≡ []) × (vec_len workers ≡ 0) × (vec_len doors.old ≤ vec_capacity workers) }
    requires visits { (visits.old.items ≡ []) × (vec_len visits.old ≡ 0) ×
        (vec_len doors.old ≤ vec_capacity visits.old) }
    requires ends { (ends.old.items ≡ []) × (vec_len ends.old ≡ 0) × (vec_len doors.old ≤ vec_capacity ends.old) }
    ensures done { DidShifts
        (seen_link A.Conn.left A.Conn.reads A.Conn.read_faults A.Conn.taken A.Conn.write_faults)
        (seen_door A.asked A.given A.ended A.door_faults A.link_faults A.waiting A.back)
        desk.now.lock.table.shared.table_id most
        seats.old.items seats.new.items doors.old.items doors.new.items visits.new.items ends.new.items }
{
    hand_out(alloc, most, seats, doors, &mut workers);
    work_all(rt, desk, &mut workers, gate);
    take_back(workers, seats, doors, visits, ends);
}
