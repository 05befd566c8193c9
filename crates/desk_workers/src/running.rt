//! A run of a script by several workers.
ghost use Rattle.std.specs.Prelude.{◌≡◌, ◌+◌, ◌-◌, ◌^◌, ◌≤◌, min, IfOk, OnErr};
ghost use Rattle.desk_common.specs.Limits.{most_workers};
ghost use Rattle.desk_law.specs.History.{IsLegal};
ghost use Rattle.desk_records.specs.Tied.{faults_in};
ghost use Rattle.sms_core.specs.Core.{HasTables};
ghost use Rattle.desk_workers.specs.Phases.{AreAnswered, IsFrontAnswered};

use crate::crew::Crew;
use crate::phases::run_phases;
use acs_tree::Slate;
use desk_plan::JobNumbers;
use sms_construct::Answers;
use sms_core::Core;
use sms_desk::Gate;
use sms_keeper::Keeper;
use sms_script::{Phase, Script};
use std::alloc::{AllocError, Global};
use std::sync::Wait;
use std::thread::Threads;

/// Answers each item of the script by so many workers: the phases one after the other, and in each the items of one
/// job one after the other (docs/manual/workers.md, "Phases"). All room of a phase is taken before its first step:
/// where memory for it is wanting, the phases before it were answered whole, and nothing of it.
pub fn run_workers<P: Keeper + Send, R: Threads + Wait + Sync, G: Gate + Sync>(
    alloc: Global,
    rt: &R,
    script: &Script,
    core: Core<P>,
    workers: usize,
    gate: &G,
) -> (Result<Answers, AllocError>, Core<P>)
    requires workers { (2 ≤ workers) × (workers ≤ most_workers) }
    ensures answered { IfOk result.0 (λ answers. AreAnswered script.now answers core.journal result.1.journal) }
    ensures wanting { OnErr result.0 (IsFrontAnswered script.now core.journal result.1.journal) }
    ensures opening { result.1.opening ≡ core.opening }
    ensures mark { result.1.mark ≡ core.mark }
    ensures legal { IsLegal result.1.opening result.1.journal }
    ensures counted { min (result.1.mark + faults_in result.1.journal) (2 ^ 64 - 1) ≤ P.count result.1.keeper }
    ensures tables { HasTables result.1.opening result.1.journal (P.told result.1.keeper) }
{
    let (answers, core) = match begin(alloc, script.as_slice()) {
        Ok((numbers, mut slate)) => {
            let crew = Crew {
                alloc,
                rt,
                numbers: &numbers,
                workers,
                gate,
            };
            run_phases(&crew, script.as_slice(), core, &mut slate)
        }
        Err(e) => (Err(e), core),
    };
    // A fact for the proof; nothing changes.
    let _journal = core.journal();
    (answers, core)
}

// The numbers of the jobs, and room for what routines write.
fn begin(alloc: Global, phases: &[Phase]) -> Result<(JobNumbers, Slate), AllocError> {
    let numbers = JobNumbers::of(alloc, phases)?;
    let slate = Slate::new(alloc)?;
    Ok((numbers, slate))
}
