//! The file of a store.
ghost use Rattle.std.specs.Prelude.{◌≡◌, IfErr};
ghost use Rattle.std.specs.Process.{exit_status};
ghost use Rattle.smsd.specs.Ends.{IsUnopened, failure_status_of, unopened_status_of};

use crate::ending::{end_refused, end_wanting};
use crate::explaining::{note_missing, note_unopened};
use sms_sqlite::SqlKeeper;
use sqlite::{Connection, Error, ErrorCode, FileStore};
use sqlite_std_file::{FileFrom, Unknown};
use std::fs;
use std::process::ExitCode;

/// The keeper over a store's file.
pub type FileKeeper = SqlKeeper<FileStore<FileFrom<Unknown>>>;

/// The keeper over the file at a path, which is made where it is missing; or the end of the program.
pub fn open(rt: &HostRuntime, path: &str) -> Result<FileKeeper, ExitCode>
    ensures { IfErr result (λ code. IsUnopened (exit_status code)) }
{
    match Connection::open_from(rt, path, false, Unknown) {
        Ok(connection) => Ok(SqlKeeper::new(rt.alloc(), connection)),
        Err((error, _)) => Err(end_unopened(rt, path, error)),
    }
}

/// The keeper over the file at a path, which must be there; or the end of the program.
pub fn open_present(rt: &HostRuntime, path: &str) -> Result<FileKeeper, ExitCode>
    ensures { IfErr result (λ code. IsUnopened (exit_status code)) }
{
    match fs::exists(rt, path) {
        Ok(false) => Err(miss(rt, path)),
        _ => open(rt, path),
    }
}

// Says why the file can't be opened, and ends the program.
fn end_unopened(rt: &HostRuntime, path: &str, error: Error) -> ExitCode
    ensures { exit_status result ≡ unopened_status_of error }
{
    match error {
        Error::SqliteFailure(code) => end_failed(rt, path, code),
        _ => refuse(rt, path, error),
    }
}

// The same of an error with this code.
fn end_failed(rt: &HostRuntime, path: &str, code: ErrorCode) -> ExitCode
    ensures { exit_status result ≡ failure_status_of code }
{
    match code {
        ErrorCode::OutOfMemory => end_wanting(rt),
        _ => refuse(rt, path, Error::SqliteFailure(code)),
    }
}

// Says what hinders the opening of the file, and ends the program.
fn refuse(rt: &HostRuntime, path: &str, error: Error) -> ExitCode
    ensures { exit_status result ≡ 9 }
{
    let mut note = String::new(rt.alloc());
    note_unopened(rt.alloc(), &mut note, path, error);
    end_refused(rt, &note)
}

// Says that there is no such file, and ends the program.
fn miss(rt: &HostRuntime, path: &str) -> ExitCode
    ensures { exit_status result ≡ 9 }
{
    let mut note = String::new(rt.alloc());
    note_missing(rt.alloc(), &mut note, path);
    end_refused(rt, &note)
}
