// A phase on a desk that workers share.
ghost use Rattle.std.specs.Prelude.{◌≡◌, ◌+◌, ◌<◌, ◌≤◌, [], All, IfOk, OnErr, OnOk, length, vec_capacity, vec_len};
ghost use Rattle.desk_common.specs.Limits.{most_workers};
ghost use Rattle.sms_desk.specs.Seats.{IsJobOf};
ghost use Rattle.desk_workers.specs.Phases.{HasPhase};
ghost use Rattle.desk_workers.specs.Inner.Planned.{IsPlanned};
ghost use Rattle.desk_workers.specs.Inner.Shared.{HasShared, IsIdle};

use crate::crew::Crew;
use crate::merging::merge;
use crate::phase::work_all;
use crate::rooms::take_rooms;
use desk_plan::{plan, rank};
use sms_construct::Answer;
use sms_core::Core;
use sms_desk::{Desk, Gate, JobSeat, JobSeats};
use sms_keeper::Keeper;
use sms_script::Item;
use std::alloc::AllocError;
use std::sync::Wait;
use std::thread::Threads;

/// Answers the items of a phase, for which there is room, on a desk of its own that the workers share who have an item
/// of it. Where memory for it is wanting nothing has changed.
pub fn share_phase<P: Keeper + Send, R: Threads + Wait + Sync, G: Gate + Sync>(
    crew: &Crew<'_, R, G>,
    items: &[Item],
    core: Core<P>,
    answers: &mut Vec<Answer>,
) -> (Result<(), AllocError>, Core<P>)
    requires workers { (2 ≤ crew.now.workers) × (crew.now.workers ≤ most_workers) }
    requires room { vec_len answers.old + length items.now ≤ vec_capacity answers.old }
    ensures answered { OnOk result.0
        (HasPhase items.now answers.old.items answers.new.items core.journal result.1.journal) }
    ensures wanting { OnErr result.0 ((answers.new.items ≡ answers.old.items) × (result.1.journal ≡ core.journal)) }
    ensures opening { result.1.opening ≡ core.opening }
    ensures mark { result.1.mark ≡ core.mark }
{
    let Ok((plan, workers)) = plan_phase(crew, items) else {
        return (Err(AllocError), core);
    };
    match Desk::new(crew.alloc, core, workers) {
        Ok((desk, seats)) => {
            let JobSeats { mut jobs, room } = seats;
            let done = answer_all(crew, &plan, items, &desk, &mut jobs, answers);
            let (core, _numbers) = desk.close(JobSeats { jobs, room });
            (done, core)
        }
        Err((core, _)) => (Err(AllocError), core),
    }
}

// The worker of each item of a phase, and how many there are: those alone that have an item.
fn plan_phase<R, G>(
    crew: &Crew<'_, R, G>,
    items: &[Item],
) -> Result<(Vec<usize>, usize), AllocError>
    requires workers { (2 ≤ crew.now.workers) × (crew.now.workers ≤ most_workers) }
    ensures { IfOk result (λ r. IsPlanned items.now r.0.items r.1) }
{
    let plan = plan(crew.alloc, crew.numbers, items, crew.workers)?;
    rank(crew.alloc, &plan, crew.workers)
}

// The workers answer the items of a phase, whose seats are idle. Where room for the answers is wanting they do nothing.
fn answer_all<P: Keeper + Send, R: Threads + Wait + Sync, G: Gate + Sync>(
    crew: &Crew<'_, R, G>,
    plan: &[usize],
    items: &[Item],
    desk: &Desk<P>,
    seats: &mut [JobSeat<P>],
    answers: &mut Vec<Answer>,
) -> Result<(), AllocError>
    requires each { length plan.now ≡ length items.now }
    requires below { All (λ k. k < length seats.old) plan.now }
    requires idle { All (IsIdle desk.now.lock.table.shared.table_id) seats.old }
    requires room { vec_len answers.old + length plan.now ≤ vec_capacity answers.old }
    ensures count { length seats.new ≡ length seats.old }
    ensures jobs { All (IsJobOf desk.now.lock.table.shared.table_id) seats.new }
    ensures answered { OnOk result (HasShared desk.now.lock.table.shared.table_id plan.now items.now
        seats.old seats.new answers.old.items answers.new.items) }
    ensures wanting { OnErr result (HasShared desk.now.lock.table.shared.table_id [] []
        seats.old seats.new answers.old.items answers.new.items) }
{
    take_rooms(plan, seats)?;
    work_all(crew.rt, desk, plan, items, seats, crew.gate);
    merge(plan, seats, answers);
    Ok(())
}
