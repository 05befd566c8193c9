// What one worker does.
ghost use Rattle.std.specs.Prelude.{◌≡◌, ◌<◌, length};
ghost use Rattle.std.specs.VecDeque.{deque_capacity, deque_len};
ghost use Rattle.sms_desk.specs.Seats.{IsJobOf};
ghost use Rattle.desk_workers.specs.Inner.Worked.{HasAnswered, HasWorked, IsReady};

use sms_desk::{Desk, Gate, JobSeat};
use sms_keeper::Keeper;
use sms_script::Item;
use std::sync::Wait;

/// Answers the items of a phase that are this worker's, in their order.
pub fn work<P: Keeper, R: Wait, G: Gate>(
    rt: &R,
    desk: &Desk<P>,
    me: usize,
    plan: &[usize],
    items: &[Item],
    seat: &mut JobSeat<P>,
    gate: &G,
)
    requires each { length plan.now ≡ length items.now }
    requires ready { IsReady desk.now.lock.table.shared.table_id me plan.now seat.old }
    ensures { HasWorked desk.now.lock.table.shared.table_id me plan.now items.now seat.old seat.new }
{
    for (at, item) in items.iter().enumerate() {
        if plan[at] == me {
            answer(rt, desk, item, seat, gate);
        }
    }
}

// Answers one item.
fn answer<P: Keeper, R: Wait, G: Gate>(
    rt: &R,
    desk: &Desk<P>,
    item: &Item,
    seat: &mut JobSeat<P>,
    gate: &G,
)
    requires job { IsJobOf desk.now.lock.table.shared.table_id seat.old }
    requires room { deque_len seat.old.answers < deque_capacity seat.old.answers }
    ensures { HasAnswered desk.now.lock.table.shared.table_id item.now seat.old seat.new }
{
    let answer = desk.submit(rt, seat, &item.request, gate);
    seat.answers.push_back_reserved(answer);
}
