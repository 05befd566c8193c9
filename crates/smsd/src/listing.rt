//! A list of a store.
ghost use Rattle.std.specs.Prelude.{◌≡◌, IfErr, IfOk};
ghost use Rattle.std.specs.Process.{exit_status};
ghost use Rattle.store_calls.specs.StoreLists.{seen_sink};
ghost use Rattle.smsd.specs.Ends.{IsOfCall, IsStoreEnd};
ghost use Rattle.smsd.specs.Inner.Calls.{EndsList};

use crate::closing::Closing;
use crate::ending::end_with;
use crate::explaining::note_status;
use crate::store::open_present;
use sms_base::{Sink, StdSink};
use sms_keeper::Stored;
use std::io;
use std::process::ExitCode;
use store_calls::store_list;
use store_report::Query;

/// Writes what is asked for of the store to standard output, and ends the program.
pub fn list(rt: &HostRuntime, store: &str, query: &Query) -> ExitCode
    ensures { IsStoreEnd (exit_status result) }
{
    list_opened(rt, query, open_present(rt, store))
}

// The same of the store that was opened; or ends the program as the opening did.
fn list_opened<P: Closing>(rt: &HostRuntime, query: &Query, opened: Result<P, ExitCode>) -> ExitCode
    ensures unopened { IfErr opened (λ code. exit_status result ≡ exit_status code) }
    ensures ran { IfOk opened (λ _. IsOfCall (exit_status result)) }
{
    match opened {
        Ok(keeper) => {
            let mut out = StdSink::new(io::writer(rt));
            let (code, keeper) = write_list(rt, query, &mut out, keeper);
            keeper.close();
            code
        }
        Err(code) => code,
    }
}

// Writes the list of the store of the keeper, and says how the program ends, with the keeper.
fn write_list<K: Sink, P: Stored>(
    rt: &HostRuntime,
    query: &Query,
    out: &mut K,
    keeper: P,
) -> (ExitCode, P)
    ensures { EndsList P.Keeper P.damage query.now (seen_sink K.taken K.write_faults out.old)
        (seen_sink K.taken K.write_faults out.new) keeper result.1 (exit_status result.0) }
{
    let (status, keeper) = store_list(rt.alloc(), query, out, keeper);
    let mut note = String::new(rt.alloc());
    note_status(rt.alloc(), &mut note, status, None);
    (end_with(rt, status, &note), keeper)
}
