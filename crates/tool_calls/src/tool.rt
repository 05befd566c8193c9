//! The top call of the translator.
ghost use Rattle.std.specs.Prelude.{◌≡◌, ◌⊎◌, Some, true, map, string_bytes};
ghost use Rattle.desk_common.specs.Causes.{Rose};
ghost use Rattle.tool_calls.specs.ToolEnds.{Ends, EndsFor, ends_shown, leaves_sink};
ghost use Rattle.tool_words.specs.Asking.{AreRefused, AreShown};
ghost use Rattle.tool_words.specs.Tool.{words_of};
ghost use Rattle.tool_words.specs.declared.task.Task.{Task as TaskOf};
ghost use Rattle.sms_base.specs.Observed.{seen_streams};

use crate::answering::answer;
use crate::limit::most_bytes;
use crate::no_answer::NoAnswer;
use crate::noting::note_words;
use crate::status::ToolStatus;
use sms_base::{ReadEnd, Sink, Source, read_all, write_all};
use std::alloc::Global;
use tool_words::{Task, WordsErr, shown_text, task_asked};

/// Does what the words of the command line ask: reads a routine, a deck, a script, or two decks and a table of cases
/// from the source to its end, translates, validates, simulates, compares, explains or tells what is reached, and
/// writes the answer to the sink. Where the words ask for help or the version it writes that text, and nothing is told
/// of the sink; that is the one exception (docs/manual/tool.md, "Words"). What a fault means, and why words are
/// refused, is noted in plain words, of which nothing is told (docs/manual/tool.md, "What a fault means").
#[tactic(auto, using(crate::proofs::WordsLemmas::task_not_refused, crate::proofs::WordsLemmas::task_not_shown, crate::proofs::WordsLemmas::never_bad))]
pub fn smsc_main<S: Source, K: Sink>(
    alloc: Global,
    words: &[String],
    src: &mut S,
    out: &mut K,
    note: &mut String,
) -> ToolStatus
    ensures unread { result ≡ ToolStatus.BadWords → src.new ≡ src.old }
    ensures unwritten { leaves_sink result ≡ true → out.new ≡ out.old }
    ensures bad { result ≡ ToolStatus.BadWords → AreRefused (map string_bytes words.now) }
    ensures refused { AreRefused (map string_bytes words.now) →
        (result ≡ ToolStatus.BadWords) ⊎ (result ≡ ToolStatus.NoMemory) }
    ensures shown { AreShown (map string_bytes words.now) → (ends_shown result ≡ true) × (src.new ≡ src.old) }
    ensures words { EndsFor (map string_bytes words.now)
        (seen_streams S.left S.reads S.read_faults K.taken K.write_faults src.old out.old)
        (seen_streams S.left S.reads S.read_faults K.taken K.write_faults src.new out.new)
        result }
    ensures ends { (task : TaskOf) → Some (map string_bytes words.now) ≡ words_of task → Ends task
        (seen_streams S.left S.reads S.read_faults K.taken K.write_faults src.old out.old)
        (seen_streams S.left S.reads S.read_faults K.taken K.write_faults src.new out.new)
        result }
{
    match task_asked(alloc, words) {
        Ok(task) => answer_source(alloc, &task, src, out, note),
        Err(WordsErr::Bad) => {
            note_words(alloc, note, words);
            ToolStatus::BadWords
        }
        Err(WordsErr::Shown) => show(alloc, words, out),
        Err(WordsErr::NoMemory) => ToolStatus::NoMemory,
    }
}

// Writes the text of help or of the version.
fn show<K: Sink>(alloc: Global, words: &[String], out: &mut K) -> ToolStatus
    ensures status { ends_shown result ≡ true }
    ensures cause { result ≡ ToolStatus.WriteFault → Rose (K.write_faults out.old) (K.write_faults out.new) }
    ensures unwritten { leaves_sink result ≡ true → out.new ≡ out.old }
{
    let Ok(text) = shown_text(alloc, words) else {
        return ToolStatus::NoMemory;
    };
    match write_all(out, text.as_bytes()) {
        Ok(()) => ToolStatus::Done,
        Err(_) => ToolStatus::WriteFault,
    }
}

// Answers what the source gives.
#[tactic(auto, using(crate::proofs::AnswerLemmas::answered, crate::proofs::AnswerLemmas::never_bad_words, crate::proofs::AnswerLemmas::never_silent))]
fn answer_source<S: Source, K: Sink>(
    alloc: Global,
    task: &Task,
    src: &mut S,
    out: &mut K,
    note: &mut String,
) -> ToolStatus
    ensures words { result ≡ ToolStatus.BadWords → ⊥ }
    ensures unwritten { leaves_sink result ≡ true → out.new ≡ out.old }
    ensures ends { Ends task.now
        (seen_streams S.left S.reads S.read_faults K.taken K.write_faults src.old out.old)
        (seen_streams S.left S.reads S.read_faults K.taken K.write_faults src.new out.new)
        result }
{
    let bytes = match read_all(alloc, src, most_bytes(*task)) {
        Ok(bytes) => bytes,
        Err(ReadEnd::Failed) => return ToolStatus::ReadFault,
        Err(ReadEnd::TooLong) => return ToolStatus::TooLong,
        Err(ReadEnd::NoMemory) => return ToolStatus::NoMemory,
    };
    let (status, text) = match answer(alloc, *task, bytes, note) {
        Ok(found) => found,
        Err(NoAnswer::Script(fault)) => return ToolStatus::Script(fault),
        Err(NoAnswer::NoMemory) => return ToolStatus::NoMemory,
    };
    match write_all(out, text.as_slice()) {
        Ok(()) => status,
        Err(_) => ToolStatus::WriteFault,
    }
}
