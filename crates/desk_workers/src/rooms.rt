// Room for the answers of workers.
ghost use Rattle.std.specs.Prelude.{◌≡◌, ◌≤◌, [], All, OnOk, length};
ghost use Rattle.std.specs.VecDeque.{deque_capacity};
ghost use Rattle.sms_desk.specs.Seats.{HasNoAnswers};
ghost use Rattle.desk_plan.specs.Sharing.{times};
ghost use Rattle.desk_workers.specs.Inner.Rooms.{AreKept, HaveRoom};

use sms_desk::JobSeat;
use sms_keeper::Keeper;
use std::alloc::AllocError;

/// Takes room in each seat for the answers that the plan gives it.
pub fn take_rooms<P: Keeper>(plan: &[usize], seats: &mut [JobSeat<P>]) -> Result<(), AllocError>
    requires none { All HasNoAnswers seats.old }
    ensures kept { AreKept seats.old seats.new }
    ensures room { OnOk result (HaveRoom plan.now (length seats.old) seats.new) }
{
    for me in 0..seats.len() {
        take_room(count_of(plan, me), &mut seats[me])?;
    }
    Ok(())
}

// Takes room in a seat for so many answers.
fn take_room<P: Keeper>(count: usize, seat: &mut JobSeat<P>) -> Result<(), AllocError>
    requires none { seat.old.answers.items ≡ [] }
    ensures same { (seat.new.seat ≡ seat.old.seat) × (seat.new.held ≡ seat.old.held) }
    ensures none { seat.new.answers.items ≡ [] }
    ensures room { OnOk result (count ≤ deque_capacity seat.new.answers) }
{
    seat.answers.reserve(count)
}

// How often the plan names the worker.
fn count_of(plan: &[usize], me: usize) -> usize
    ensures { result ≡ times me plan.now }
{
    let mut count = 0;
    for worker in plan {
        if *worker == me {
            count += 1;
        }
    }
    count
}
