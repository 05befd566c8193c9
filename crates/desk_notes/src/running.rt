//! How a run ended, in words.
use crate::word_faults::words_note;
use desk_calls::RunStatus;
use desk_common::MAX_INPUT;
use desk_words::managed_day;
use fault_notes::{reserved_note, script_note};
use sms_script::{ScriptErr, read_script};
use std::alloc::{AllocError, Global};

/// Notes what failed in a run with these words and this script, as far as that is known, and what stands.
pub fn note_run(
    alloc: Global,
    note: &mut String,
    words: &[String],
    status: RunStatus,
    script: Option<&[u8]>,
) {
    match (status, script) {
        (RunStatus::BadWords, _) => keep(note, words_note(alloc, words)),
        (RunStatus::Script(fault), Some(text)) => {
            keep(note, fault_note(alloc, words, text, fault));
        }
        _ => {
            let _ = note.push_str(sentence_of(status));
        }
    }
}

/// What a status alone tells: what failed, and what stands. Empty where all went well.
pub fn sentence_of(status: RunStatus) -> &'static str {
    match status {
        RunStatus::Done => "",
        RunStatus::BadWords => {
            "the words of the command line are none that the program knows; nothing was read\n"
        }
        RunStatus::ReadFault => "standard input can't be read; nothing was answered\n",
        RunStatus::WriteFault => {
            "standard output can't be written; all was answered, and a front of the text may be there\n"
        }
        RunStatus::Script(_) => "the script has a fault in that line; nothing was answered\n",
        RunStatus::TooLong => "the script has more than 16777216 bytes; nothing was answered\n",
        RunStatus::NoMemory => {
            "memory is wanting; nothing was written, and requests may have been answered\n"
        }
    }
}

// The line of a script's fault, and what it means.
fn fault_note(
    alloc: Global,
    words: &[String],
    text: &[u8],
    fault: ScriptErr,
) -> Result<String, AllocError> {
    match fault {
        ScriptErr::BadLine(line)
            if managed_day(words).is_some() && is_reserved(alloc, text, fault) => {
            reserved_note(alloc, text, line)
        }
        _ => script_note(alloc, text, fault),
    }
}

// The fault isn't the script's own, but that of a line which is kept for the day.
fn is_reserved(alloc: Global, text: &[u8], fault: ScriptErr) -> bool {
    if text.len() > MAX_INPUT {
        return false;
    }
    match read_script(alloc, text) {
        Ok(_) => true,
        Err(ScriptErr::NoMemory) => false,
        Err(own) => own != fault,
    }
}

fn keep(note: &mut String, made: Result<String, AllocError>) {
    if let Ok(text) = made {
        *note = text;
    }
}
