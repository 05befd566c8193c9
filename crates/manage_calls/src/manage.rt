//! The top call of the desk with a day of space management behind the run.
ghost use Rattle.std.specs.Prelude.{◌≡◌, ◌↔◌, ℕ, None, Some, true, map, string_bytes, IfSome};
ghost use Rattle.sms_keeper.specs.Tables.{AreSame, no_rows};
ghost use Rattle.desk_words.specs.Managing.{managed_day_in};
ghost use Rattle.desk_calls.specs.RunFault.{leaves_keeper, leaves_sink};
ghost use Rattle.manage_calls.specs.ManageEnds.{ManageEnds};
ghost use Rattle.sms_base.specs.Observed.{seen_streams};
ghost use Rattle.desk_calls.specs.Headline.{seen_keeper};

use crate::managing::manage_text;
use desk_calls::RunStatus;
use desk_common::MAX_INPUT;
use desk_words::managed_day;
use sms_base::{ReadEnd, Sink, Source, read_all, write_all};
use sms_keeper::Keeper;
use sms_script::ScriptErr;
use std::alloc::Global;

/// Answers the script of the source by one worker on an empty desk over a keeper of empty tables, then asks for all
/// that is due on the day that the words name, and writes the text of the answers and of the acts to the sink; it hands
/// the keeper back (docs/manual/management.md).
pub fn manage_main<S: Source, K: Sink, P: Keeper>(
    alloc: Global,
    words: &[String],
    src: &mut S,
    out: &mut K,
    keeper: P,
) -> (RunStatus, P)
    requires tables { IfSome (P.told keeper) (λ rows. AreSame rows no_rows) }
    ensures words { result.0 ≡ RunStatus.BadWords ↔ (managed_day_in (map string_bytes words.now) ≡ None) }
    ensures unread { result.0 ≡ RunStatus.BadWords → src.new ≡ src.old }
    ensures unwritten { leaves_sink result.0 ≡ true → out.new ≡ out.old }
    ensures unrun { leaves_keeper result.0 ≡ true → result.1 ≡ keeper }
    ensures ends { (day : ℕ) → managed_day_in (map string_bytes words.now) ≡ Some day → ManageEnds day
        (seen_streams S.left S.reads S.read_faults K.taken K.write_faults src.old out.old)
        (seen_streams S.left S.reads S.read_faults K.taken K.write_faults src.new out.new)
        (seen_keeper P.told P.count keeper) (seen_keeper P.told P.count result.1)
        result.0 }
{
    match managed_day(words) {
        None => (RunStatus::BadWords, keeper),
        Some(day) => manage_source(alloc, day, src, out, keeper),
    }
}

// Does so for this day.
fn manage_source<S: Source, K: Sink, P: Keeper>(
    alloc: Global,
    day: u32,
    src: &mut S,
    out: &mut K,
    keeper: P,
) -> (RunStatus, P)
    requires tables { IfSome (P.told keeper) (λ rows. AreSame rows no_rows) }
    ensures words { result.0 ≡ RunStatus.BadWords → ⊥ }
    ensures unwritten { leaves_sink result.0 ≡ true → out.new ≡ out.old }
    ensures unrun { leaves_keeper result.0 ≡ true → result.1 ≡ keeper }
    ensures ends { ManageEnds day
        (seen_streams S.left S.reads S.read_faults K.taken K.write_faults src.old out.old)
        (seen_streams S.left S.reads S.read_faults K.taken K.write_faults src.new out.new)
        (seen_keeper P.told P.count keeper) (seen_keeper P.told P.count result.1)
        result.0 }
{
    let bytes = match read_all(alloc, src, MAX_INPUT) {
        Ok(bytes) => bytes,
        Err(ReadEnd::Failed) => return (RunStatus::ReadFault, keeper),
        Err(ReadEnd::TooLong) => return (RunStatus::TooLong, keeper),
        Err(ReadEnd::NoMemory) => return (RunStatus::NoMemory, keeper),
    };
    let (text, keeper) = manage_text(alloc, &bytes, day, keeper);
    let text = match text {
        Ok(text) => text,
        Err(ScriptErr::NoMemory) => return (RunStatus::NoMemory, keeper),
        Err(fault) => return (RunStatus::Script(fault), keeper),
    };
    match write_all(out, &text) {
        Ok(()) => (RunStatus::Done, keeper),
        Err(_) => (RunStatus::WriteFault, keeper),
    }
}
