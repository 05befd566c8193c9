//! Space management on a store.
ghost use Rattle.std.specs.Prelude.{◌≡◌, IfErr, IfOk};
ghost use Rattle.std.specs.Process.{exit_status};
ghost use Rattle.store_calls.specs.StoreLists.{seen_sink};
ghost use Rattle.smsd.specs.Ends.{IsOfCall, IsStoreEnd};
ghost use Rattle.smsd.specs.Inner.Calls.{EndsManage, ManageEnds};

use crate::closing::Closing;
use crate::ending::end_with;
use crate::explaining::note_status;
use crate::noted_sink::NotedSink;
use crate::store::open_present;
use desk_notes::note_all_replies;
use sms_base::{Sink, StdSink};
use sms_keeper::Stored;
use std::alloc::Global;
use std::io;
use std::process::ExitCode;
use store_calls::{StoreStatus, store_due, store_manage};

/// Does what space management has to do on the store on a day, or with `dry` only says it, and ends the program.
pub fn manage(rt: &HostRuntime, store: &str, day: u32, dry: bool) -> ExitCode
    ensures { IsStoreEnd (exit_status result) }
{
    manage_opened(rt, day, dry, open_present(rt, store))
}

// The same on the store that was opened; or ends the program as the opening did.
fn manage_opened<P: Closing>(
    rt: &HostRuntime,
    day: u32,
    dry: bool,
    opened: Result<P, ExitCode>,
) -> ExitCode
    ensures unopened { IfErr opened (λ code. exit_status result ≡ exit_status code) }
    ensures ran { IfOk opened (λ _. IsOfCall (exit_status result)) }
{
    match opened {
        Ok(keeper) => {
            let mut out = NotedSink::new(StdSink::new(io::writer(rt)));
            let (code, keeper) = manage_store(rt, day, dry, &mut out, keeper);
            keeper.close();
            code
        }
        Err(code) => code,
    }
}

// The same on the store of the keeper; says how the program ends, with the keeper.
fn manage_store<K: Sink, P: Stored>(
    rt: &HostRuntime,
    day: u32,
    dry: bool,
    out: &mut NotedSink<K>,
    keeper: P,
) -> (ExitCode, P)
    ensures { EndsManage P.Keeper P.damage dry day (seen_sink K.taken K.write_faults out.old.sink)
        (seen_sink K.taken K.write_faults out.new.sink) keeper result.1 (exit_status result.0) }
{
    let (status, keeper) = do_or_tell(rt.alloc(), day, dry, out, keeper);
    let mut note = String::new(rt.alloc());
    note_status(rt.alloc(), &mut note, status, None);
    note_all_replies(rt.alloc(), &mut note, out.seen(), None);
    (end_with(rt, status, &note), keeper)
}

// Does what is due, or tells it.
fn do_or_tell<K: Sink, P: Stored>(
    alloc: Global,
    day: u32,
    dry: bool,
    out: &mut NotedSink<K>,
    keeper: P,
) -> (StoreStatus, P)
    ensures { ManageEnds P.Keeper P.damage dry day (seen_sink K.taken K.write_faults out.old.sink)
        (seen_sink K.taken K.write_faults out.new.sink) keeper result.1 result.0 }
{
    if dry {
        store_due(alloc, day, out, keeper)
    } else {
        store_manage(alloc, day, out, keeper)
    }
}
