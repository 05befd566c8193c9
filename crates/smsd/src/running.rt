//! A script on a store.
ghost use Rattle.std.specs.Prelude.{◌≡◌, IfErr, IfOk, OnErr, false, true};
ghost use Rattle.std.specs.Process.{exit_status};
ghost use Rattle.sms_base.specs.Observed.{seen_streams};
ghost use Rattle.smsd.specs.Ends.{IsOfScript, IsReadEnd, IsScriptEnd, judged_status_of};
ghost use Rattle.smsd.specs.Inner.Calls.{EndsBehind, EndsRun, day_behind};
ghost use Rattle.store_calls.specs.StoreLists.{seen_sink};

use crate::closing::Closing;
use crate::ending::{end_bad, end_unread, end_with, is_bad, is_done};
use crate::explaining::{note_behind, note_status, note_unread};
use crate::kept_source::KeptSource;
use crate::noted_sink::NotedSink;
use crate::store::open;
use desk_notes::{RepliesSeen, note_all_replies};
use sms_base::{Sink, Source, StdSink, StdSource};
use sms_keeper::Stored;
use smsd_words::Running;
use std::alloc::Global;
use std::io::Read;
use std::process::ExitCode;
use std::{fs, io};
use store_calls::{StoreStatus, store_manage, store_run};

/// Answers the script on standard input on the store, and ends the program.
pub fn run(rt: &HostRuntime, store: &str, running: Running) -> ExitCode
    ensures { IsReadEnd (IsScriptEnd running.strict) (exit_status result) }
{
    let source = StdSource::new(rt.reader());
    run_source(rt, running, source, open(rt, store))
}

/// Answers the script in the file at the path on the store, and ends the program.
pub fn run_file(rt: &HostRuntime, store: &str, running: Running, path: &str) -> ExitCode
    ensures { IsReadEnd (IsScriptEnd running.strict) (exit_status result) }
{
    run_opened(rt, store, running, path, fs::open(rt, path))
}

// Answers the script in the file that was opened, or says why it wasn't; ends the program.
fn run_opened<R: Read + Drop>(
    rt: &HostRuntime,
    store: &str,
    running: Running,
    path: &str,
    opened: io::Result<R>,
) -> ExitCode
    ensures unread { OnErr opened (exit_status result ≡ 3) }
    ensures ends { IsReadEnd (IsScriptEnd running.strict) (exit_status result) }
{
    match opened {
        Ok(file) => run_source(rt, running, StdSource::new(file), open(rt, store)),
        Err(error) => refuse(rt, path, error),
    }
}

// Answers the script of the source on the store that was opened, and ends the program; or ends it as the opening did.
fn run_source<S: Source + Drop, P: Closing>(
    rt: &HostRuntime,
    running: Running,
    source: S,
    opened: Result<P, ExitCode>,
) -> ExitCode
    ensures unopened { IfErr opened (λ code. exit_status result ≡ exit_status code) }
    ensures ran { IfOk opened (λ _. IsOfScript running.strict (exit_status result)) }
{
    match opened {
        Ok(keeper) => {
            let mut src = KeptSource::new(rt.alloc(), source);
            let mut out = NotedSink::new(StdSink::new(io::writer(rt)));
            let (code, keeper) = answer(rt, running, &mut src, &mut out, keeper);
            keeper.close();
            code
        }
        Err(code) => code,
    }
}

// Answers the script of the source on the store of the keeper, and says how the program ends, with the keeper.
fn answer<S: Source, K: Sink, P: Stored>(
    rt: &HostRuntime,
    running: Running,
    src: &mut KeptSource<S>,
    out: &mut NotedSink<K>,
    keeper: P,
) -> (ExitCode, P)
    ensures { EndsRun P.Keeper P.damage running
        (seen_streams S.left S.reads S.read_faults K.taken K.write_faults src.old.source out.old.sink)
        (seen_streams S.left S.reads S.read_faults K.taken K.write_faults src.new.source out.new.sink)
        keeper result.1 (exit_status result.0) }
{
    let (ran, keeper) = store_run(rt.alloc(), running.volumes, src, out, keeper);
    let (status, keeper) = manage_behind(rt.alloc(), running.managed, ran, out, keeper);
    let mut note = String::new(rt.alloc());
    note_behind(&mut note, ran, status);
    note_status(rt.alloc(), &mut note, status, src.given());
    note_all_replies(rt.alloc(), &mut note, out.seen(), src.given());
    let good = is_good(running.strict, out.seen());
    (end_judged(rt, status, good, &note), keeper)
}

// Does space management behind a script that was answered and written, where a day is named, and says how that ended.
fn manage_behind<K: Sink, P: Stored>(
    alloc: Global,
    managed: Option<u32>,
    ran: StoreStatus,
    out: &mut NotedSink<K>,
    keeper: P,
) -> (StoreStatus, P)
    ensures { EndsBehind P.Keeper P.damage (day_behind managed ran) ran
        (seen_sink K.taken K.write_faults out.old.sink) (seen_sink K.taken K.write_faults out.new.sink)
        keeper result.1 result.0 }
{
    match day_behind(managed, ran) {
        Some(day) => store_manage(alloc, day, out, keeper),
        None => (ran, keeper),
    }
}

// The day of space management behind a script that ended so.
fn day_behind(managed: Option<u32>, ran: StoreStatus) -> Option<u32>
    ensures { result ≡ day_behind managed ran }
{
    if is_done(ran) {
        return managed;
    }
    None
}

// Whether the answers that were written are good, which all are of a script that isn't strict.
fn is_good(strict: bool, seen: RepliesSeen) -> bool
    ensures { strict ≡ false → result ≡ true }
{
    if strict {
        return !seen.has_undone();
    }
    true
}

// Says how the script ended, where that isn't well, and what its note says; ends the program with its status, or with
// that of answers that aren't good.
fn end_judged(rt: &HostRuntime, status: StoreStatus, good: bool, note: &str) -> ExitCode
    ensures { exit_status result ≡ judged_status_of status good }
{
    if is_bad(status, good) {
        return end_bad(rt, note);
    }
    end_with(rt, status, note)
}

/// Says why the input can't be opened, and ends the program.
pub fn refuse(rt: &HostRuntime, path: &str, error: io::Error) -> ExitCode
    ensures { exit_status result ≡ 3 }
{
    let mut note = String::new(rt.alloc());
    note_unread(rt.alloc(), &mut note, path, error);
    end_unread(rt, &note)
}
