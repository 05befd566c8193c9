//! A run of a script on one core.
ghost use Rattle.std.specs.Prelude.{◌≡◌, ◌≤◌, ◌+◌, ◌-◌, ◌^◌, [], length, min, IfOk, IfSome, OnErr, vec_capacity};
ghost use Rattle.std.specs.Prelude.{vec_len};
ghost use Rattle.desk_law.specs.History.{IsLegal};
ghost use Rattle.desk_records.specs.Tied.{faults_in};
ghost use Rattle.sms_core.specs.Core.{HasTables, WasTold};
ghost use Rattle.sms_script.specs.Script.{items_of};
ghost use Rattle.desk_common.specs.Limits.{most_workers};
ghost use Rattle.desk_workers.specs.Phases.{IsFrontAnswered};
ghost use Rattle.desk_calls.specs.Headline.{IsRecorded, WasRun, seen_keeper};
ghost use Rattle.desk_calls.specs.Run.{AnswersFront, AnswersInOrder};

use crate::lawful_history::legal_is_lawful;
use acs_tree::Slate;
use desk_common::Items;
use desk_workers::run_workers;
use sms_construct::{Answer, Answers};
use sms_core::{Core, Work};
use sms_desk::Gate;
use sms_keeper::Keeper;
use sms_script::{Item, Phase, Script};
use std::alloc::{AllocError, Global};
use std::sync::Wait;
use std::thread::Threads;

/// Answers each item of the script in its order, one phase after the other. Room for all answers is taken before the
/// first step: where memory for it is wanting, nothing was answered.
pub fn run_script<P: Keeper>(
    alloc: Global,
    script: &Script,
    mut core: Core<P>,
) -> (Result<Answers, AllocError>, Core<P>)
    ensures answered { IfOk result.0 (λ answers.
        AnswersInOrder (items_of script.now) answers core.journal result.1.journal) }
    ensures unrun { OnErr result.0 (result.1 ≡ core) }
    ensures opening { result.1.opening ≡ core.opening }
    ensures mark { result.1.mark ≡ core.mark }
    ensures legal { IsLegal result.1.opening result.1.journal }
    ensures counted { min (result.1.mark + faults_in result.1.journal) (2 ^ 64 - 1) ≤ P.count result.1.keeper }
    ensures tables { HasTables result.1.opening result.1.journal (P.told result.1.keeper) }
    ensures told { WasTold (P.told core.keeper) (P.told result.1.keeper) }
{
    let room = take_room(alloc, script.as_slice());
    let Ok((mut answers, mut slate)) = room else {
        // A fact for the proof; nothing changes.
        let _journal = core.journal();
        return (Err(AllocError), core);
    };
    answer_phases(script.as_slice(), &mut core, &mut slate, &mut answers);
    // A fact for the proof; nothing changes.
    let _journal = core.journal();
    (Ok(Items::from_vec(answers)), core)
}

/// Answers each item of the script on a desk without entries, in script order. Where memory for the answers is wanting,
/// nothing was answered.
#[tactic(auto, using(crate::proofs::OrderLemmas::in_order_answered))]
pub fn run_alone<P: Keeper>(
    alloc: Global,
    script: &Script,
    core: Core<P>,
) -> (Result<Answers, AllocError>, Core<P>)
    requires journal { core.journal ≡ [] }
    requires mark { core.mark ≡ P.count core.keeper }
    ensures ran { IfOk result.0 (λ answers. WasRun core.opening 1
        (seen_keeper P.told P.count core.keeper) (seen_keeper P.told P.count result.1.keeper)
        script.now answers result.1.journal) }
    ensures unrun { OnErr result.0 (result.1 ≡ core) }
    ensures opening { result.1.opening ≡ core.opening }
    ensures told { WasTold (P.told core.keeper) (P.told result.1.keeper) }
{
    // Facts for the proof; nothing changes.
    legal_is_lawful();
    let _journal = core.journal();
    run_script(alloc, script, core)
}

/// The same by several workers. Where memory for a phase is wanting, the phases before it were answered whole.
pub fn run_shared<P: Keeper + Send, R: Threads + Wait + Sync, G: Gate + Sync>(
    alloc: Global,
    rt: &R,
    script: &Script,
    workers: usize,
    core: Core<P>,
    gate: &G,
) -> (Result<Answers, AllocError>, Core<P>)
    requires workers { (2 ≤ workers) × (workers ≤ most_workers) }
    requires journal { core.journal ≡ [] }
    requires mark { core.mark ≡ P.count core.keeper }
    ensures ran { IfOk result.0 (λ answers. WasRun core.opening workers
        (seen_keeper P.told P.count core.keeper) (seen_keeper P.told P.count result.1.keeper)
        script.now answers result.1.journal) }
    ensures front { OnErr result.0 (IsFrontAnswered script.now [] result.1.journal) }
    ensures recorded { IsRecorded core.opening
        (seen_keeper P.told P.count core.keeper) (seen_keeper P.told P.count result.1.keeper) result.1.journal }
    ensures opening { result.1.opening ≡ core.opening }
{
    // Facts for the proof; nothing changes.
    legal_is_lawful();
    let _journal = core.journal();
    run_workers(alloc, rt, script, core, workers, gate)
}

// Room for the answers to all items, and for what routines write.
fn take_room(alloc: Global, phases: &[Phase]) -> Result<(Vec<Answer>, Slate), AllocError>
    ensures none { IfOk result (λ room. room.0.items ≡ []) }
    ensures room { IfOk result (λ room. length (items_of phases.now) ≤ vec_capacity room.0) }
{
    let answers = room_for(alloc, phases)?;
    let slate = Slate::new(alloc)?;
    Ok((answers, slate))
}

// Room for the answers to all items.
fn room_for(alloc: Global, phases: &[Phase]) -> Result<Vec<Answer>, AllocError>
    ensures none { IfOk result (λ answers. answers.items ≡ []) }
    ensures room { IfOk result (λ answers. length (items_of phases.now) ≤ vec_capacity answers) }
{
    match count_items(phases) {
        Some(count) => Vec::with_capacity(alloc, count),
        None => Err(AllocError),
    }
}

// How many items there are; `None` where no number of the machine tells it.
fn count_items(phases: &[Phase]) -> Option<usize>
    ensures { IfSome result (λ count. count ≡ length (items_of phases.now)) }
{
    let mut count = 0usize;
    for phase in phases {
        count = count.checked_add(phase.len())?;
    }
    Some(count)
}

// Answers the items of all phases, for which there is room.
fn answer_phases<P: Keeper>(
    phases: &[Phase],
    core: &mut Core<P>,
    slate: &mut Slate,
    answers: &mut Vec<Answer>,
)
    requires none { answers.old.items ≡ [] }
    requires room { length (items_of phases.now) ≤ vec_capacity answers.old }
    ensures answered { AnswersInOrder (items_of phases.now) answers.new.items core.old.journal core.new.journal }
    ensures opening { core.new.opening ≡ core.old.opening }
    ensures mark { core.new.mark ≡ core.old.mark }
    ensures told { WasTold (P.told core.old.keeper) (P.told core.new.keeper) }
{
    for phase in phases {
        answer_items(phase.as_slice(), core, slate, answers);
    }
}

// Answers the items of a phase behind those of the phases before it.
fn answer_items<P: Keeper>(
    items: &[Item],
    core: &mut Core<P>,
    slate: &mut Slate,
    answers: &mut Vec<Answer>,
)
    requires room { vec_len answers.old + length items.now ≤ vec_capacity answers.old }
    ensures answered { AnswersFront items.now (length items.now)
        answers.old.items answers.new.items core.old.journal core.new.journal }
    ensures capacity { vec_capacity answers.new ≡ vec_capacity answers.old }
    ensures opening { core.new.opening ≡ core.old.opening }
    ensures mark { core.new.mark ≡ core.old.mark }
    ensures told { WasTold (P.told core.old.keeper) (P.told core.new.keeper) }
{
    for item in items {
        let answer = core.step(&item.request, Work::Nothing, slate);
        answers.push_reserved(answer);
    }
}
