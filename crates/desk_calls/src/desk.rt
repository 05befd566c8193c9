//! The top call of the desk.
ghost use Rattle.std.specs.Prelude.{◌≡◌, ◌≤◌, ◌↔◌, ℕ, None, Some, [], true, map, string_bytes, IfSome};
ghost use Rattle.sms_keeper.specs.Tables.{AreSame, no_rows};
ghost use Rattle.desk_law.specs.Records.{empty_opening};
ghost use Rattle.desk_common.specs.Limits.{most_items, most_workers};
ghost use Rattle.desk_words.specs.Words.{task_in};
ghost use Rattle.desk_words.specs.declared.task.Task.{Task as Asked};
ghost use Rattle.desk_words.specs.declared.task.Task.TheVariants.{Generate};
ghost use Rattle.desk_calls.specs.RunFault.{Ends, LoadEnds, RunEnds, leaves_keeper, leaves_sink};
ghost use Rattle.sms_core.specs.Core.{WasTold};
ghost use Rattle.sms_base.specs.Observed.{seen_streams};
ghost use Rattle.desk_calls.specs.Headline.{seen_keeper};

use crate::answering::{answer_text, shared_text};
use crate::load::load_text;
use crate::status::RunStatus;
use desk_common::MAX_INPUT;
use desk_words::{Task, task_asked};
use sms_base::{ReadEnd, Sink, Source, read_all, write_all};
use sms_core::Core;
use sms_desk::Gate;
use sms_keeper::Keeper;
use sms_script::ScriptErr;
use std::alloc::Global;
use std::sync::Wait;
use std::thread::Threads;

/// Does what the words of the command line ask, on an empty desk over a keeper of empty tables, which it hands back:
/// reads a script from the source to its end, answers it by as many workers as are asked for and writes the text of
/// the answers to the sink, with the table of volumes behind it where that is asked for; or answers a generated script,
/// with the source untouched, and writes the summary of the answers (docs/manual/script.md, "The program";
/// docs/manual/generator.md). The gate is called by several workers alone (docs/manual/workers.md, "Submitting").
pub fn desk_main<S: Source, K: Sink, P: Keeper + Send, R: Threads + Wait + Sync, G: Gate + Sync>(
    alloc: Global,
    rt: &R,
    words: &[String],
    src: &mut S,
    out: &mut K,
    keeper: P,
    gate: &G,
) -> (RunStatus, P)
    requires tables { IfSome (P.told keeper) (λ rows. AreSame rows no_rows) }
    ensures words { result.0 ≡ RunStatus.BadWords ↔ (task_in (map string_bytes words.now) ≡ None) }
    ensures unread { result.0 ≡ RunStatus.BadWords → src.new ≡ src.old }
    ensures unasked { (seed count : ℕ) → task_in (map string_bytes words.now) ≡ Some (Generate seed count) →
        src.new ≡ src.old }
    ensures unwritten { leaves_sink result.0 ≡ true → out.new ≡ out.old }
    ensures unrun { leaves_keeper result.0 ≡ true → result.1 ≡ keeper }
    ensures ends { (task : Asked) → task_in (map string_bytes words.now) ≡ Some task → Ends task
        (seen_streams S.left S.reads S.read_faults K.taken K.write_faults src.old out.old)
        (seen_streams S.left S.reads S.read_faults K.taken K.write_faults src.new out.new)
        (seen_keeper P.told P.count keeper) (seen_keeper P.told P.count result.1)
        result.0 }
{
    match task_asked(words) {
        None => (RunStatus::BadWords, keeper),
        Some(Task::Run { volumes, workers }) if workers == 1 => {
            run_source(alloc, volumes, src, out, Core::new(alloc, keeper))
        }
        Some(Task::Run { volumes, workers }) => {
            run_shared(alloc, rt, volumes, workers, src, out, keeper, gate)
        }
        Some(Task::Generate { seed, count }) => load(alloc, seed, count, src, out, keeper),
    }
}

/// Reads a script from the source to its end, answers it by one worker on a desk without entries, and writes the
/// text of the answers to the sink, with `volumes` with the table of volumes behind it. It hands the keeper back.
pub fn run_source<S: Source, K: Sink, P: Keeper>(
    alloc: Global,
    volumes: bool,
    src: &mut S,
    out: &mut K,
    core: Core<P>,
) -> (RunStatus, P)
    requires journal { core.journal ≡ [] }
    requires mark { core.mark ≡ P.count core.keeper }
    ensures words { result.0 ≡ RunStatus.BadWords → ⊥ }
    ensures unwritten { leaves_sink result.0 ≡ true → out.new ≡ out.old }
    ensures unrun { leaves_keeper result.0 ≡ true → result.1 ≡ core.keeper }
    ensures told { WasTold (P.told core.keeper) (P.told result.1) }
    ensures ends { RunEnds core.opening volumes 1
        (seen_streams S.left S.reads S.read_faults K.taken K.write_faults src.old out.old)
        (seen_streams S.left S.reads S.read_faults K.taken K.write_faults src.new out.new)
        (seen_keeper P.told P.count core.keeper) (seen_keeper P.told P.count result.1)
        result.0 }
{
    let bytes = match read_all(alloc, src, MAX_INPUT) {
        Ok(bytes) => bytes,
        Err(ReadEnd::Failed) => return (RunStatus::ReadFault, core.into_parts().0),
        Err(ReadEnd::TooLong) => return (RunStatus::TooLong, core.into_parts().0),
        Err(ReadEnd::NoMemory) => return (RunStatus::NoMemory, core.into_parts().0),
    };
    let (text, keeper) = answer_text(alloc, &bytes, volumes, core);
    let text = match text {
        Ok(text) => text,
        Err(ScriptErr::NoMemory) => return (RunStatus::NoMemory, keeper),
        Err(fault) => return (RunStatus::Script(fault), keeper),
    };
    match write_all(out, &text) {
        Ok(()) => (RunStatus::Done, keeper),
        Err(_) => (RunStatus::WriteFault, keeper),
    }
}

// The same by several workers on an empty desk over the keeper.
fn run_shared<S: Source, K: Sink, P: Keeper + Send, R: Threads + Wait + Sync, G: Gate + Sync>(
    alloc: Global,
    rt: &R,
    volumes: bool,
    workers: u8,
    src: &mut S,
    out: &mut K,
    keeper: P,
    gate: &G,
) -> (RunStatus, P)
    requires workers { (2 ≤ workers) × (workers ≤ most_workers) }
    requires tables { IfSome (P.told keeper) (λ rows. AreSame rows no_rows) }
    ensures words { result.0 ≡ RunStatus.BadWords → ⊥ }
    ensures unwritten { leaves_sink result.0 ≡ true → out.new ≡ out.old }
    ensures unrun { leaves_keeper result.0 ≡ true → result.1 ≡ keeper }
    ensures ends { RunEnds empty_opening volumes workers
        (seen_streams S.left S.reads S.read_faults K.taken K.write_faults src.old out.old)
        (seen_streams S.left S.reads S.read_faults K.taken K.write_faults src.new out.new)
        (seen_keeper P.told P.count keeper) (seen_keeper P.told P.count result.1)
        result.0 }
{
    let bytes = match read_all(alloc, src, MAX_INPUT) {
        Ok(bytes) => bytes,
        Err(ReadEnd::Failed) => return (RunStatus::ReadFault, keeper),
        Err(ReadEnd::TooLong) => return (RunStatus::TooLong, keeper),
        Err(ReadEnd::NoMemory) => return (RunStatus::NoMemory, keeper),
    };
    let core = Core::new(alloc, keeper);
    let (text, keeper) = shared_text(alloc, rt, &bytes, volumes, workers, core, gate);
    let text = match text {
        Ok(text) => text,
        Err(ScriptErr::NoMemory) => return (RunStatus::NoMemory, keeper),
        Err(fault) => return (RunStatus::Script(fault), keeper),
    };
    match write_all(out, &text) {
        Ok(()) => (RunStatus::Done, keeper),
        Err(_) => (RunStatus::WriteFault, keeper),
    }
}

// Answers the generated script.
fn load<S: Source, K: Sink, P: Keeper>(
    alloc: Global,
    seed: u32,
    count: u32,
    src: &mut S,
    out: &mut K,
    keeper: P,
) -> (RunStatus, P)
    requires few { count ≤ most_items }
    requires tables { IfSome (P.told keeper) (λ rows. AreSame rows no_rows) }
    ensures words { result.0 ≡ RunStatus.BadWords → ⊥ }
    ensures unread { src.new ≡ src.old }
    ensures unwritten { leaves_sink result.0 ≡ true → out.new ≡ out.old }
    ensures unrun { leaves_keeper result.0 ≡ true → result.1 ≡ keeper }
    ensures ends { LoadEnds seed count
        (seen_streams S.left S.reads S.read_faults K.taken K.write_faults src.old out.old)
        (seen_streams S.left S.reads S.read_faults K.taken K.write_faults src.new out.new)
        (seen_keeper P.told P.count keeper) (seen_keeper P.told P.count result.1)
        result.0 }
{
    let (text, keeper) = load_text(alloc, seed, count, keeper);
    let Ok(text) = text else {
        return (RunStatus::NoMemory, keeper);
    };
    match write_all(out, &text) {
        Ok(()) => (RunStatus::Done, keeper),
        Err(_) => (RunStatus::WriteFault, keeper),
    }
}
