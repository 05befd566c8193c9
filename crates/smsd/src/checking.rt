//! A deck checked on a store.
ghost use Rattle.std.specs.Prelude.{◌≡◌, IfErr, IfOk, OnErr};
ghost use Rattle.std.specs.Process.{exit_status};
ghost use Rattle.sms_base.specs.Observed.{seen_streams};
ghost use Rattle.smsd.specs.Ends.{IsJudgedEnd, IsOfJudged, IsReadEnd, judged_status_of};
ghost use Rattle.smsd.specs.Inner.Calls.{EndsCheck};

use crate::closing::Closing;
use crate::ending::{end_bad, end_with, is_bad};
use crate::explaining::{note_deck, note_status};
use crate::kept_source::KeptSource;
use crate::running::refuse;
use crate::store::open_present;
use sms_base::{Sink, Source, StdSink, StdSource};
use sms_keeper::Stored;
use std::io::Read;
use std::process::ExitCode;
use std::{fs, io};
use store_calls::{StoreStatus, store_check};

/// Says what an activation of the deck in the file at the path would be answered on the store, and ends the program.
pub fn check(rt: &HostRuntime, store: &str, path: &str) -> ExitCode
    ensures { IsReadEnd IsJudgedEnd (exit_status result) }
{
    check_opened(rt, store, path, fs::open(rt, path))
}

// The same of the deck in the file that was opened; or says why it wasn't.
fn check_opened<R: Read + Drop>(
    rt: &HostRuntime,
    store: &str,
    path: &str,
    opened: io::Result<R>,
) -> ExitCode
    ensures unread { OnErr opened (exit_status result ≡ 3) }
    ensures ends { IsReadEnd IsJudgedEnd (exit_status result) }
{
    match opened {
        Ok(file) => check_source(rt, StdSource::new(file), open_present(rt, store)),
        Err(error) => refuse(rt, path, error),
    }
}

// The same of the deck of the source, on the store that was opened; or ends the program as the opening did.
fn check_source<S: Source + Drop, P: Closing>(
    rt: &HostRuntime,
    source: S,
    opened: Result<P, ExitCode>,
) -> ExitCode
    ensures unopened { IfErr opened (λ code. exit_status result ≡ exit_status code) }
    ensures checked { IfOk opened (λ _. IsOfJudged (exit_status result)) }
{
    match opened {
        Ok(keeper) => {
            let mut src = KeptSource::new(rt.alloc(), source);
            let mut out = StdSink::new(io::writer(rt));
            let (code, keeper) = check_deck(rt, &mut src, &mut out, keeper);
            keeper.close();
            code
        }
        Err(code) => code,
    }
}

// Checks the deck of the source on the store of the keeper, and says how the program ends, with the keeper.
fn check_deck<S: Source, K: Sink, P: Stored>(
    rt: &HostRuntime,
    src: &mut KeptSource<S>,
    out: &mut K,
    keeper: P,
) -> (ExitCode, P)
    ensures { EndsCheck P.Keeper P.damage
        (seen_streams S.left S.reads S.read_faults K.taken K.write_faults src.old.source out.old)
        (seen_streams S.left S.reads S.read_faults K.taken K.write_faults src.new.source out.new)
        keeper result.1 (exit_status result.0) }
{
    let (status, good, keeper) = store_check(rt.alloc(), src, out, keeper);
    (end_check(rt, status, good, src.given()), keeper)
}

// Says how the check of a deck ended, where that isn't well, and ends the program.
fn end_check(rt: &HostRuntime, status: StoreStatus, good: bool, deck: Option<&[u8]>) -> ExitCode
    ensures { exit_status result ≡ judged_status_of status good }
{
    let mut note = String::new(rt.alloc());
    if is_bad(status, good) {
        note_deck(rt.alloc(), &mut note, deck);
        return end_bad(rt, &note);
    }
    note_status(rt.alloc(), &mut note, status, None);
    end_with(rt, status, &note)
}
