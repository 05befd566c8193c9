//! How the program ends.
ghost use Rattle.std.specs.Prelude.{◌≡◌};
ghost use Rattle.std.specs.Process.{exit_status};
ghost use Rattle.smsd.specs.Ends.{is_bad, is_done, is_whole};
ghost use Rattle.store_calls.specs.Statuses.{store_status_of};

use crate::explaining::{NO_MEMORY, WAITING_FAULT};
use desk_calls::RunStatus;
use std::io::Write;
use std::process::ExitCode;
use store_calls::StoreStatus;

// The exit statuses of what is judged and isn't good, of waiting that failed, and of a file or a port that can't be had.
const NOT_GOOD: u8 = 1;

const NOT_WAITED: u8 = 8;

const NOT_HAD: u8 = 9;

/// Says how a call over a store ended, where that isn't well, and what its note says; ends the program with its status.
pub fn end_with(rt: &HostRuntime, status: StoreStatus, note: &str) -> ExitCode
    ensures { exit_status result ≡ store_status_of status }
{
    let code = status.code();
    let _ = match status {
        StoreStatus::Ran(RunStatus::Done) => Ok(()),
        StoreStatus::Ran(RunStatus::Script(fault)) => eprintln!(rt; "smsd: status {code} {fault}"),
        _ => eprintln!(rt; "smsd: status {code}"),
    };
    say(rt, note);
    ExitCode::from(code)
}

/// Says that memory is wanting before a store is open, and ends the program.
pub fn end_wanting(rt: &HostRuntime) -> ExitCode
    ensures { exit_status result ≡ 7 }
{
    end(rt, 7, NO_MEMORY)
}

/// Says why a file or a port can't be had, and ends the program.
pub fn end_refused(rt: &HostRuntime, note: &str) -> ExitCode
    ensures { exit_status result ≡ 9 }
{
    end_noted(rt, NOT_HAD, note)
}

/// Says why the input can't be opened, and ends the program.
pub fn end_unread(rt: &HostRuntime, note: &str) -> ExitCode
    ensures { exit_status result ≡ 3 }
{
    end_noted(rt, 3, note)
}

/// Says that waiting for connections failed, and ends the program.
pub fn end_unwaited(rt: &HostRuntime) -> ExitCode
    ensures { exit_status result ≡ 8 }
{
    end(rt, NOT_WAITED, WAITING_FAULT)
}

/// Ends the program where a deck wouldn't be active, or a strict script has an answer that isn't good, with what its note
/// says.
pub fn end_bad(rt: &HostRuntime, note: &str) -> ExitCode
    ensures { exit_status result ≡ 1 }
{
    say(rt, note);
    ExitCode::from(NOT_GOOD)
}

/// Whether all was written, and what was written isn't good.
pub fn is_bad(status: StoreStatus, good: bool) -> bool
    ensures { result ≡ is_bad status good }
{
    is_done(status) && !good
}

/// Whether all was written.
pub fn is_done(status: StoreStatus) -> bool
    ensures { result ≡ is_done status }
{
    match status {
        StoreStatus::Ran(status) => is_whole(status),
        StoreStatus::Unopened(_) => false,
    }
}

fn is_whole(status: RunStatus) -> bool
    ensures { result ≡ is_whole status }
{
    matches!(status, RunStatus::Done)
}

/// Ends the program where all went well.
pub fn end_well() -> ExitCode
    ensures { exit_status result ≡ 0 }
{
    ExitCode::from(0)
}

/// Says a status on standard error, and behind it a sentence; ends the program with it.
pub fn end(rt: &HostRuntime, status: u8, sentence: &str) -> ExitCode
    ensures { exit_status result ≡ status }
{
    let _ = eprintln!(rt; "smsd: status {status}");
    if !sentence.is_empty() {
        let _ = eprintln!(rt; "smsd: {sentence}");
    }
    ExitCode::from(status)
}

// The same with the lines of a note.
fn end_noted(rt: &HostRuntime, status: u8, note: &str) -> ExitCode
    ensures { exit_status result ≡ status }
{
    let _ = eprintln!(rt; "smsd: status {status}");
    say(rt, note);
    ExitCode::from(status)
}

// Says lines on standard error, if there are any.
fn say(rt: &HostRuntime, lines: &str) {
    if !lines.is_empty() {
        let _ = eprint!(rt; "smsd: {lines}");
    }
}
