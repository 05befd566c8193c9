// How workers go to their doors, and come back.
ghost use Rattle.std.specs.Prelude.{◌≡◌, ◌≤◌, [], Some, All, map, reverse, vec_capacity, vec_len};
ghost use Rattle.serve_calls.specs.Inner.Workers.{HasMost, IsAtSeat, door_of, end_of, seat_of, visits_of};

use crate::worker::Worker;
use desk_common::Items;
use serve_door::{DoorEnd, Visits};
use sms_desk::JobSeat;
use sms_keeper::Keeper;
use std::alloc::Global;

/// A worker gets each seat and each door, the last ones first.
pub fn hand_out<A, P: Keeper>(
    alloc: Global,
    most: u32,
    seats: &mut Vec<JobSeat<P>>,
    doors: &mut Vec<A>,
    workers: &mut Vec<Worker<A, P>>,
)
    requires same { vec_len seats.old ≡ vec_len doors.old }
    requires room { (workers.old.items ≡ []) × (vec_len workers.old ≡ 0) ×
        (vec_len doors.old ≤ vec_capacity workers.old) }
    ensures seats { map seat_of workers.new.items ≡ reverse (map (λ seat. Some seat) seats.old.items) }
    ensures doors { map door_of workers.new.items ≡ reverse doors.old.items }
    ensures most { All (HasMost most) workers.new.items }
    ensures no_seats { (seats.new.items ≡ []) × (vec_len seats.new ≡ 0) ×
        (vec_capacity seats.new ≡ vec_capacity seats.old) }
    ensures no_doors { (doors.new.items ≡ []) × (vec_len doors.new ≡ 0) ×
        (vec_capacity doors.new ≡ vec_capacity doors.old) }
{
    while let Some(door) = doors.pop() {
        let Some(seat) = seats.pop() else {
            unreachable!()
        };
        workers.push_reserved(Worker {
            alloc,
            most,
            seat: Some(seat),
            door,
            visits: Items::new(alloc),
            end: DoorEnd::Ended,
        });
    }
}

/// Each worker gives back its seat and its door, and tells its visits and their end, the last one first.
pub fn take_back<A: Drop, P: Keeper>(
    mut workers: Vec<Worker<A, P>>,
    seats: &mut Vec<JobSeat<P>>,
    doors: &mut Vec<A>,
    visits: &mut Vec<Visits>,
    ends: &mut Vec<DoorEnd>,
)
    requires at_seat { All IsAtSeat workers.items }
    requires seats { (seats.old.items ≡ []) × (vec_len seats.old ≡ 0) × (vec_len workers ≤ vec_capacity seats.old) }
    requires doors { (doors.old.items ≡ []) × (vec_len doors.old ≡ 0) × (vec_len workers ≤ vec_capacity doors.old) }
    requires visits { (visits.old.items ≡ []) × (vec_len visits.old ≡ 0) × (vec_len workers ≤ vec_capacity visits.old) }
    requires ends { (ends.old.items ≡ []) × (vec_len ends.old ≡ 0) × (vec_len workers ≤ vec_capacity ends.old) }
    ensures seats { map (λ seat. Some seat) seats.new.items ≡ reverse (map seat_of workers.items) }
    ensures doors { doors.new.items ≡ reverse (map door_of workers.items) }
    ensures visits { visits.new.items ≡ reverse (map visits_of workers.items) }
    ensures ends { ends.new.items ≡ reverse (map end_of workers.items) }
{
    while let Some(worker) = workers.pop() {
        let Worker {
            seat,
            door,
            visits: visited,
            end,
            ..
        } = worker;
        let Some(seat) = seat else { unreachable!() };
        seats.push_reserved(seat);
        doors.push_reserved(door);
        visits.push_reserved(visited);
        ends.push_reserved(end);
    }
}
