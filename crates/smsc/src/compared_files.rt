//! A comparison of files.
use crate::files::{file_bytes, whole};
use acs_test::InputParts;
use sms_base::{StdSink, StdSource};
use std::io;
use tool_calls::{PartNames, ToolStatus, compare_parts};
use tool_words::{Comparison, Task, WordsErr, task_asked};

/// The paths of the parts of a comparison; where there is none for the cases they are on standard input.
#[derive(Clone, Copy)]
pub struct ComparedFiles<'a> {
    pub before: &'a str,
    pub after: &'a str,
    pub cases: Option<&'a str>,
}

/// Compares the decks of two files under the cases of a third one, or of standard input.
pub fn compare_files(
    rt: &HostRuntime,
    words: &[String],
    files: ComparedFiles<'_>,
    note: &mut String,
) -> ToolStatus {
    let comparison = match task_asked(rt.alloc(), words) {
        Ok(Task::Compare(comparison)) => comparison,
        Ok(_) | Err(WordsErr::Bad | WordsErr::Shown) => return ToolStatus::BadWords,
        Err(WordsErr::NoMemory) => return ToolStatus::NoMemory,
    };
    match compared(rt, comparison, files, note) {
        Ok(status) | Err(status) => status,
    }
}

fn compared(
    rt: &HostRuntime,
    comparison: Comparison,
    files: ComparedFiles<'_>,
    note: &mut String,
) -> Result<ToolStatus, ToolStatus> {
    let before = file_bytes(rt, files.before, note)?;
    let after = file_bytes(rt, files.after, note)?;
    let table = match files.cases {
        Some(path) => file_bytes(rt, path, note)?,
        None => whole(rt.alloc(), &mut StdSource::new(rt.reader()))?,
    };
    let parts = InputParts {
        before: &before,
        after: &after,
        table: &table,
    };
    let mut out = StdSink::new(io::writer(rt));
    Ok(compare_parts(
        rt.alloc(),
        comparison,
        parts,
        names_of(files),
        &mut out,
        note,
    ))
}

fn names_of(files: ComparedFiles<'_>) -> PartNames<'_> {
    PartNames {
        before: files.before,
        after: files.after,
        table: files.cases.unwrap_or("standard input"),
    }
}
