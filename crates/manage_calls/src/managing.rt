// From the bytes of a script to the text of its answers and of the acts behind them.
ghost use Rattle.std.specs.Prelude.{◌≡◌, ◌<◌, ◌^◌, ◌++◌, List, ℕ, true, length, Ok, IfErr, IfOk, IfSome, OnErr};
ghost use Rattle.sms_keeper.specs.Tables.{AreSame, no_rows};
ghost use Rattle.sms_manage.specs.Managed.{IsAsking, IsUnused, WasDayBegun, WasManaged};
ghost use Rattle.sms_manage.specs.ManageText.{managed_text};
ghost use Rattle.sms_script.specs.AnswerText.{text_of};
ghost use Rattle.sms_script.specs.Script.{IsRefusal, items_of};
ghost use Rattle.manage_calls.specs.Reserved.{are_free, managed_script_of};
ghost use Rattle.manage_calls.specs.ManagedRun.{IsAnsweredAndManaged, IsManageLeft};
ghost use Rattle.desk_calls.specs.Headline.{seen_keeper};

use crate::printing::push_managed;
use crate::reading::read_managed;
use acs_tree::Slate;
use desk_calls::{new_is_lawful, run_script};
use sms_construct::Answer;
use sms_core::Core;
use sms_keeper::Keeper;
use sms_manage::{Act, Acts, run_day};
use sms_script::{Script, ScriptErr, print};
use std::alloc::{AllocError, Global};

/// The text of the answers to the script that the bytes write, by one worker, from an empty desk over the keeper, and
/// behind it that of a day of space management.
pub fn manage_text<P: Keeper>(
    alloc: Global,
    bytes: &[u8],
    day: u32,
    keeper: P,
) -> (Result<Vec<u8>, ScriptErr>, P)
    requires few { length bytes.now < 2 ^ 32 }
    requires tables { IfSome (P.told keeper) (λ rows. AreSame rows no_rows) }
    ensures answered { IfOk result.0 (λ text. IsAnsweredAndManaged day
        (seen_keeper P.told P.count keeper) (seen_keeper P.told P.count result.1) bytes.now text.items) }
    ensures refused { IfErr result.0 (IsRefusal (managed_script_of bytes.now)) }
    ensures unrun { IfErr result.0 (λ fault. (fault ≡ ScriptErr.NoMemory → ⊥) → result.1 ≡ keeper) }
    ensures left { IfErr result.0 (λ _. IsManageLeft day
        (seen_keeper P.told P.count keeper) (seen_keeper P.told P.count result.1) bytes.now) }
{
    match read_managed(alloc, bytes) {
        Ok(script) => manage_script(alloc, &script, day, keeper),
        Err(fault) => (Err(fault), keeper),
    }
}

// The same of a script.
fn manage_script<P: Keeper>(
    alloc: Global,
    script: &Script,
    day: u32,
    keeper: P,
) -> (Result<Vec<u8>, ScriptErr>, P)
    requires free { are_free script.now ≡ true }
    requires tables { IfSome (P.told keeper) (λ rows. AreSame rows no_rows) }
    ensures answered { IfOk result.0 (λ text. (bytes : List ℕ) → managed_script_of bytes ≡ Ok script.now →
        IsAnsweredAndManaged day
        (seen_keeper P.told P.count keeper) (seen_keeper P.told P.count result.1) bytes text.items) }
    ensures wanting { IfErr result.0 (λ fault. fault ≡ ScriptErr.NoMemory) }
    ensures left { IfErr result.0 (λ _. (bytes : List ℕ) → managed_script_of bytes ≡ Ok script.now →
        IsManageLeft day (seen_keeper P.told P.count keeper) (seen_keeper P.told P.count result.1) bytes) }
{
    // A fact for the proof; nothing runs.
    new_is_lawful();
    let (answers, mut core) = run_script(alloc, script, Core::new(alloc, keeper));
    let Ok(answers) = answers else {
        let (keeper, _journal) = core.into_parts();
        return (Err(ScriptErr::NoMemory), keeper);
    };
    let entries = core.journal().len() as u64;
    let acts = manage_day(alloc, &mut core, day);
    let (keeper, _journal) = core.into_parts();
    let Ok(acts) = acts else {
        return (Err(ScriptErr::NoMemory), keeper);
    };
    match text_with_acts(alloc, script, answers.as_slice(), entries, acts.as_slice()) {
        Ok(text) => (Ok(text), keeper),
        Err(_) => (Err(ScriptErr::NoMemory), keeper),
    }
}

// Does what is due on the day.
fn manage_day<P: Keeper>(alloc: Global, core: &mut Core<P>, day: u32) -> Result<Acts, AllocError>
    requires { IsUnused core.old.opening core.old.journal }
    ensures managed { IfOk result (λ acts. WasManaged core.old.opening day core.old.journal core.new.journal acts) }
    ensures begun { OnErr result (WasDayBegun core.old.opening day core.old.journal core.new.journal) }
    ensures asking { IsAsking core.old.journal core.new.journal }
    ensures opening { core.new.opening ≡ core.old.opening }
    ensures mark { core.new.mark ≡ core.old.mark }
{
    let mut slate = Slate::new(alloc)?;
    run_day(alloc, core, &mut slate, day)
}

// The text of the answers, with the number of entries that they made, and of the acts behind it.
fn text_with_acts(
    alloc: Global,
    script: &Script,
    answers: &[Answer],
    entries: u64,
    acts: &[Act],
) -> Result<Vec<u8>, AllocError>
    requires { length answers.now ≡ length (items_of script.now) }
    ensures { IfOk result (λ text. text.items ≡ text_of script.now answers.now entries ++ managed_text acts.now) }
{
    let mut text = print(alloc, script, answers, entries)?;
    push_managed(alloc, &mut text, acts)?;
    Ok(text)
}
