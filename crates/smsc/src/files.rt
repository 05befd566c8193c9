//! The files that words name.
ghost use Rattle.std.specs.Prelude.{◌≤◌, length, IfOk};
ghost use Rattle.desk_common.specs.Limits.{most_input_bytes};

use desk_common::MAX_INPUT;
use fault_notes::shown;
use sms_base::{ReadEnd, Source, StdSource, read_all};
use std::alloc::Global;
use std::fs::{self, File};
use tool_calls::ToolStatus;

/// The file at this path as a source; where it can't be opened, that is noted.
pub fn open(
    rt: &HostRuntime,
    path: &str,
    note: &mut String,
) -> Result<StdSource<File>, ToolStatus> {
    match fs::open(rt, path) {
        Ok(file) => Ok(StdSource::new(file)),
        Err(error) => {
            if let Ok(fault) = format!(in rt.alloc(); "can't be opened: {error}") {
                note_file(rt.alloc(), path, &fault, note);
            }
            Err(ToolStatus::ReadFault)
        }
    }
}

/// What is said of a file that can't be read.
pub const UNREAD: &str = "can't be read";

/// What is said of a file with more bytes than an input may have.
pub const TOO_LONG: &str =
    "has too many bytes: a routine has at most 65536, any other input 16777216";

/// Notes what is wrong with the file at this path.
pub fn note_file(alloc: Global, path: &str, fault: &str, note: &mut String) {
    if let Ok(name) = shown(alloc, path.as_bytes()) {
        if let Ok(sentence) = format!(in alloc; "'{name}' {fault}; nothing was written\n") {
            *note = sentence;
        }
    }
}

/// All bytes of a source, of which there are at most as many as of any input.
pub fn whole<S: Source>(alloc: Global, src: &mut S) -> Result<Vec<u8>, ToolStatus>
    ensures { IfOk result (λ bytes. length bytes.items ≤ most_input_bytes) }
{
    match read_all(alloc, src, MAX_INPUT) {
        Ok(bytes) => Ok(bytes),
        Err(ReadEnd::Failed) => Err(ToolStatus::ReadFault),
        Err(ReadEnd::TooLong) => Err(ToolStatus::TooLong),
        Err(ReadEnd::NoMemory) => Err(ToolStatus::NoMemory),
    }
}

/// All bytes of the file at this path; where it can't be read, that is noted.
pub fn file_bytes(rt: &HostRuntime, path: &str, note: &mut String) -> Result<Vec<u8>, ToolStatus>
    ensures { IfOk result (λ bytes. length bytes.items ≤ most_input_bytes) }
{
    let mut src = open(rt, path, note)?;
    match whole(rt.alloc(), &mut src) {
        Ok(bytes) => Ok(bytes),
        Err(status) => {
            match status {
                ToolStatus::ReadFault => note_file(rt.alloc(), path, UNREAD, note),
                ToolStatus::TooLong => note_file(rt.alloc(), path, TOO_LONG, note),
                _ => (),
            }
            Err(status)
        }
    }
}
