// How answers are put back in order.
ghost use Rattle.std.specs.Prelude.{◌≡◌, ◌+◌, ◌≤◌, ◌<◌, ◌∷◌, All, length, vec_capacity, vec_len};
ghost use Rattle.desk_workers.specs.Inner.Merged.{AreQueues, HasMerged};

use sms_construct::Answer;
use sms_desk::JobSeat;
use sms_keeper::Keeper;

/// Puts the workers' answers behind the others, in the order of their items.
pub fn merge<P: Keeper>(plan: &[usize], seats: &mut [JobSeat<P>], answers: &mut Vec<Answer>)
    requires below { All (λ k. k < length seats.old) plan.now }
    requires queues { AreQueues plan.now seats.old }
    requires room { vec_len answers.old + length plan.now ≤ vec_capacity answers.old }
    ensures merged { HasMerged plan.now seats.old seats.new answers.old.items answers.new.items }
    ensures capacity { vec_capacity answers.new ≡ vec_capacity answers.old }
{
    for worker in plan {
        let answer = first_answer(&mut seats[*worker]);
        answers.push_reserved(answer);
    }
}

// The first answer of a seat.
fn first_answer<P: Keeper>(seat: &mut JobSeat<P>) -> Answer
    requires some { 0 < length seat.old.answers.items }
    ensures answers { seat.old.answers.items ≡ result ∷ seat.new.answers.items }
    ensures same { (seat.new.seat ≡ seat.old.seat) × (seat.new.held ≡ seat.old.held) }
{
    let Some(answer) = seat.answers.pop_front() else {
        unreachable!()
    };
    answer
}
