// A phase, by all workers.
ghost use Rattle.std.specs.Prelude.{◌≡◌, ◌<◌, ℕ, length, slice_index_or};
ghost use Rattle.sms_desk.specs.declared.job_seat.JobSeat.{JobSeat as Job};
ghost use Rattle.desk_workers.specs.Inner.Worked.{HasWorked, IsReady};

use crate::working::work;
use sms_desk::{Desk, Gate, JobSeat};
use sms_keeper::Keeper;
use sms_script::Item;
use std::sync::Wait;
use std::thread;
use std::thread::Threads;

/// Each worker answers its items of the phase, in a thread of its own where one can be made.
pub fn work_all<P: Keeper + Send, R: Threads + Wait + Sync, G: Gate + Sync>(
    rt: &R,
    desk: &Desk<P>,
    plan: &[usize],
    items: &[Item],
    seats: &mut [JobSeat<P>],
    gate: &G,
)
    requires each { length plan.now ≡ length items.now }
    requires ready { (i : ℕ) (d : Job P P.Keeper) → i < length seats.old →
        IsReady desk.now.lock.table.shared.table_id i plan.now (slice_index_or seats.old i d) }
    ensures count { length seats.new ≡ length seats.old }
    ensures worked { (i : ℕ) (d : Job P P.Keeper) → i < length seats.old →
        HasWorked desk.now.lock.table.shared.table_id i plan.now items.now
        (slice_index_or seats.old i d) (slice_index_or seats.new i d) }
{
    let count = seats.len();
    if count == 0 {
        return;
    }
    thread::for_each_mut(
        rt,
        seats,
        count,
        &|i: usize, s: &mut JobSeat<P>|
            requires { (length plan.now ≡ length items.now) ×
                IsReady desk.now.lock.table.shared.table_id i plan.now s.old }
            ensures { HasWorked desk.entry.now.lock.table.shared.table_id i plan.entry.now items.entry.now s.old s.new }
        { work(rt, desk, i, plan, items, s, gate) },
    );
}
