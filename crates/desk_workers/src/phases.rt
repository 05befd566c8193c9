// The phases of a script, one after the other.
ghost use Rattle.std.specs.Prelude.{◌≡◌, ◌≤◌, IfOk, OnErr, OnOk};
ghost use Rattle.desk_common.specs.Limits.{most_workers};
ghost use Rattle.desk_workers.specs.Phases.{AreAnswered, HasPhase, IsFrontAnswered};

use crate::crew::Crew;
use crate::sharing::share_phase;
use crate::single::answer_items;
use acs_tree::Slate;
use desk_common::Items;
use desk_plan::has_one_job;
use sms_construct::{Answer, Answers};
use sms_core::Core;
use sms_desk::Gate;
use sms_keeper::Keeper;
use sms_script::{Item, Phase};
use std::alloc::AllocError;
use std::sync::Wait;
use std::thread::Threads;

/// Answers the items of the phases, one phase after the other. Where memory for a phase is wanting, those before it
/// were answered whole, and nothing of it.
pub fn run_phases<P: Keeper + Send, R: Threads + Wait + Sync, G: Gate + Sync>(
    crew: &Crew<'_, R, G>,
    phases: &[Phase],
    core: Core<P>,
    slate: &mut Slate,
) -> (Result<Answers, AllocError>, Core<P>)
    requires workers { (2 ≤ crew.now.workers) × (crew.now.workers ≤ most_workers) }
    ensures answered { IfOk result.0 (λ answers. AreAnswered phases.now answers core.journal result.1.journal) }
    ensures wanting { OnErr result.0 (IsFrontAnswered phases.now core.journal result.1.journal) }
    ensures opening { result.1.opening ≡ core.opening }
    ensures mark { result.1.mark ≡ core.mark }
{
    let mut core = core;
    let mut answers = Vec::new(crew.alloc);
    for phase in phases {
        let (done, after) = run_phase(crew, phase.as_slice(), core, slate, &mut answers);
        core = after;
        if done.is_err() {
            return (Err(AllocError), core);
        }
    }
    (Ok(Items::from_vec(answers)), core)
}

// Answers the items of a phase behind the other answers. Where memory for it is wanting nothing has changed.
fn run_phase<P: Keeper + Send, R: Threads + Wait + Sync, G: Gate + Sync>(
    crew: &Crew<'_, R, G>,
    items: &[Item],
    core: Core<P>,
    slate: &mut Slate,
    answers: &mut Vec<Answer>,
) -> (Result<(), AllocError>, Core<P>)
    requires workers { (2 ≤ crew.now.workers) × (crew.now.workers ≤ most_workers) }
    ensures answered { OnOk result.0
        (HasPhase items.now answers.old.items answers.new.items core.journal result.1.journal) }
    ensures wanting { OnErr result.0 ((answers.new.items ≡ answers.old.items) × (result.1.journal ≡ core.journal)) }
    ensures opening { result.1.opening ≡ core.opening }
    ensures mark { result.1.mark ≡ core.mark }
{
    if answers.reserve(items.len()).is_err() {
        return (Err(AllocError), core);
    }
    if has_one_job(items) {
        let mut core = core;
        answer_items(crew.rt, items, &mut core, slate, answers, crew.gate);
        return (Ok(()), core);
    }
    share_phase(crew, items, core, answers)
}
