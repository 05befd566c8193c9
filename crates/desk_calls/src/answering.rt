// From the bytes of a script to the text of its answers.
ghost use Rattle.std.specs.Prelude.{◌≡◌, ◌<◌, ◌≤◌, ◌^◌, List, ℕ, [], length, Ok, IfErr, IfOk};
ghost use Rattle.sms_script.specs.Script.{IsRefusal, script_of};
ghost use Rattle.desk_common.specs.Limits.{most_workers};
ghost use Rattle.sms_core.specs.Core.{WasTold};
ghost use Rattle.desk_calls.specs.Headline.{IsAnswered, IsLeft, seen_keeper};

use crate::run_text::run_text;
use crate::script_run::{run_alone, run_shared};
use sms_core::Core;
use sms_desk::Gate;
use sms_keeper::Keeper;
use sms_script::{Script, ScriptErr, read_script};
use std::alloc::Global;
use std::mem::forget;
use std::sync::Wait;
use std::thread::Threads;

/// The text of the answers to the script that the bytes write, by one worker, on a desk without entries; with `volumes`
/// the table of volumes stands behind it. Script, answers and what the core holds aren't freed: a program that ends
/// behind it gives all back at once.
pub fn answer_text<P: Keeper>(
    alloc: Global,
    bytes: &[u8],
    volumes: bool,
    core: Core<P>,
) -> (Result<Vec<u8>, ScriptErr>, P)
    requires few { length bytes.now < 2 ^ 32 }
    requires journal { core.journal ≡ [] }
    requires mark { core.mark ≡ P.count core.keeper }
    ensures answered { IfOk result.0 (λ text. IsAnswered core.opening volumes 1
        (seen_keeper P.told P.count core.keeper) (seen_keeper P.told P.count result.1) bytes.now text.items) }
    ensures refused { IfErr result.0 (IsRefusal (script_of bytes.now)) }
    ensures unrun { IfErr result.0 (λ fault. (fault ≡ ScriptErr.NoMemory → ⊥) → result.1 ≡ core.keeper) }
    ensures left { IfErr result.0 (λ _. IsLeft core.opening 1
        (seen_keeper P.told P.count core.keeper) (seen_keeper P.told P.count result.1) bytes.now) }
    ensures told { WasTold (P.told core.keeper) (P.told result.1) }
{
    match read_script(alloc, bytes) {
        Ok(script) => {
            let answered = answer_alone(alloc, &script, volumes, core);
            forget(script);
            answered
        }
        Err(fault) => (Err(fault), core.into_parts().0),
    }
}

/// The same by several workers.
pub fn shared_text<P: Keeper + Send, R: Threads + Wait + Sync, G: Gate + Sync>(
    alloc: Global,
    rt: &R,
    bytes: &[u8],
    volumes: bool,
    workers: u8,
    core: Core<P>,
    gate: &G,
) -> (Result<Vec<u8>, ScriptErr>, P)
    requires few { length bytes.now < 2 ^ 32 }
    requires workers { (2 ≤ workers) × (workers ≤ most_workers) }
    requires journal { core.journal ≡ [] }
    requires mark { core.mark ≡ P.count core.keeper }
    ensures answered { IfOk result.0 (λ text. IsAnswered core.opening volumes workers
        (seen_keeper P.told P.count core.keeper) (seen_keeper P.told P.count result.1) bytes.now text.items) }
    ensures refused { IfErr result.0 (IsRefusal (script_of bytes.now)) }
    ensures unrun { IfErr result.0 (λ fault. (fault ≡ ScriptErr.NoMemory → ⊥) → result.1 ≡ core.keeper) }
    ensures left { IfErr result.0 (λ _. IsLeft core.opening workers
        (seen_keeper P.told P.count core.keeper) (seen_keeper P.told P.count result.1) bytes.now) }
{
    match read_script(alloc, bytes) {
        Ok(script) => answer_shared(alloc, rt, &script, volumes, workers, core, gate),
        Err(fault) => (Err(fault), core.into_parts().0),
    }
}

// The text of the answers to a script by one worker, on a desk without entries.
fn answer_alone<P: Keeper>(
    alloc: Global,
    script: &Script,
    volumes: bool,
    core: Core<P>,
) -> (Result<Vec<u8>, ScriptErr>, P)
    requires journal { core.journal ≡ [] }
    requires mark { core.mark ≡ P.count core.keeper }
    ensures answered { IfOk result.0 (λ text. (bytes : List ℕ) → script_of bytes ≡ Ok script.now →
        IsAnswered core.opening volumes 1
        (seen_keeper P.told P.count core.keeper) (seen_keeper P.told P.count result.1) bytes text.items) }
    ensures wanting { IfErr result.0 (λ fault. fault ≡ ScriptErr.NoMemory) }
    ensures left { IfErr result.0 (λ _. (bytes : List ℕ) → script_of bytes ≡ Ok script.now →
        IsLeft core.opening 1 (seen_keeper P.told P.count core.keeper) (seen_keeper P.told P.count result.1) bytes) }
    ensures told { WasTold (P.told core.keeper) (P.told result.1) }
{
    let (answers, core) = run_alone(alloc, script, core);
    let Ok(answers) = answers else {
        let (keeper, _journal) = core.into_parts();
        return (Err(ScriptErr::NoMemory), keeper);
    };
    let text = run_text(alloc, script, answers.as_slice(), volumes, &core);
    let keeper = core.into_keeper();
    forget(answers);
    match text {
        Ok(text) => (Ok(text), keeper),
        Err(_) => (Err(ScriptErr::NoMemory), keeper),
    }
}

// The same by several workers.
fn answer_shared<P: Keeper + Send, R: Threads + Wait + Sync, G: Gate + Sync>(
    alloc: Global,
    rt: &R,
    script: &Script,
    volumes: bool,
    workers: u8,
    core: Core<P>,
    gate: &G,
) -> (Result<Vec<u8>, ScriptErr>, P)
    requires workers { (2 ≤ workers) × (workers ≤ most_workers) }
    requires journal { core.journal ≡ [] }
    requires mark { core.mark ≡ P.count core.keeper }
    ensures answered { IfOk result.0 (λ text. (bytes : List ℕ) → script_of bytes ≡ Ok script.now →
        IsAnswered core.opening volumes workers
        (seen_keeper P.told P.count core.keeper) (seen_keeper P.told P.count result.1) bytes text.items) }
    ensures wanting { IfErr result.0 (λ fault. fault ≡ ScriptErr.NoMemory) }
    ensures left { IfErr result.0 (λ _. (bytes : List ℕ) → script_of bytes ≡ Ok script.now →
        IsLeft core.opening workers
        (seen_keeper P.told P.count core.keeper) (seen_keeper P.told P.count result.1) bytes) }
{
    let (answers, core) = run_shared(alloc, rt, script, usize::from(workers), core, gate);
    let Ok(answers) = answers else {
        let (keeper, _journal) = core.into_parts();
        return (Err(ScriptErr::NoMemory), keeper);
    };
    let text = run_text(alloc, script, answers.as_slice(), volumes, &core);
    let (keeper, _journal) = core.into_parts();
    match text {
        Ok(text) => (Ok(text), keeper),
        Err(_) => (Err(ScriptErr::NoMemory), keeper),
    }
}
