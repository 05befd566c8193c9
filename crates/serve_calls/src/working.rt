// What the workers do.
ghost use Rattle.std.specs.Prelude.{◌≡◌, ◌<◌, ℕ, All, length, slice_index_or};
ghost use Rattle.serve_calls.specs.declared.worker.Worker.{Worker as WorkerOf};
ghost use Rattle.serve_calls.specs.Seen.{seen_door, seen_link};
ghost use Rattle.serve_calls.specs.Inner.Workers.{DidShift, HasSeat};

use crate::seat_bench::SeatBench;
use crate::worker::Worker;
use desk_common::Items;
use http_head::Routes;
use serve_door::{DoorEnd, serve_door};
use sms_base::Accept;
use sms_desk::{Desk, Gate};
use sms_keeper::Keeper;
use std::sync::Wait;
use std::thread;
use std::thread::Threads;

/// Each worker serves the links of its door, in a thread of its own where one can be made. A worker that finds
/// no memory to begin serves none.
pub fn work_all<A: Accept + Send, P: Keeper + Send, R: Threads + Wait + Sync, G: Gate + Sync>(
    rt: &R,
    desk: &Desk<P>,
    workers: &mut [Worker<A, P>],
    gate: &G,
)
where
    A::Conn: Send,
    requires { All (HasSeat desk.now.lock.table.shared.table_id) workers.old }
    ensures count { length workers.new ≡ length workers.old }
    ensures shifts { (i : ℕ) (d : WorkerOf A P P.Keeper) → i < length workers.old → DidShift
        (seen_link A.Conn.left A.Conn.reads A.Conn.read_faults A.Conn.taken A.Conn.write_faults)
        (seen_door A.asked A.given A.ended A.door_faults A.link_faults A.waiting A.back)
        desk.now.lock.table.shared.table_id (slice_index_or workers.old i d) (slice_index_or workers.new i d) }
{
    let count = workers.len();
    if count == 0 {
        return;
    }
    thread::for_each_mut(
        rt,
        workers,
        count,
        &|_i: usize, worker: &mut Worker<A, P>|
            requires { HasSeat desk.now.lock.table.shared.table_id worker.old }
            ensures { DidShift
                (seen_link A.Conn.left A.Conn.reads A.Conn.read_faults A.Conn.taken A.Conn.write_faults)
                (seen_door A.asked A.given A.ended A.door_faults A.link_faults A.waiting A.back)
                desk.entry.now.lock.table.shared.table_id worker.old worker.new }
        { work(rt, desk, worker, gate) },
    );
}

// A worker serves the links of its door, or none where memory to begin is wanting.
fn work<A: Accept, P: Keeper, R: Wait, G: Gate>(
    rt: &R,
    desk: &Desk<P>,
    worker: &mut Worker<A, P>,
    gate: &G,
)
    requires { HasSeat desk.now.lock.table.shared.table_id worker.old }
    ensures { DidShift
        (seen_link A.Conn.left A.Conn.reads A.Conn.read_faults A.Conn.taken A.Conn.write_faults)
        (seen_door A.asked A.given A.ended A.door_faults A.link_faults A.waiting A.back)
        desk.now.lock.table.shared.table_id worker.old worker.new }
{
    let Ok(routes) = Routes::new(worker.alloc) else {
        worker.visits = Items::new(worker.alloc);
        worker.end = DoorEnd::NoMemory;
        return;
    };
    let Some(seat) = worker.seat.take() else {
        unreachable!()
    };
    let bench = SeatBench::new(rt, desk, seat, gate);
    let (end, bench, visits) = serve_door(
        worker.alloc,
        &routes,
        &mut worker.door,
        bench,
        worker.most,
    );
    worker.seat = Some(bench.into_seat());
    worker.visits = visits;
    worker.end = end;
}
