//! A script on a store.
ghost use Rattle.std.specs.Prelude.{◌≡◌, true};
ghost use Rattle.desk_calls.specs.declared.status.RunStatus.TheVariants.{BadWords};
ghost use Rattle.sms_base.specs.Observed.{seen_streams};
ghost use Rattle.sms_open.specs.declared.open_err.OpenErr.{OpenErr as Refusal};
ghost use Rattle.store_calls.specs.StoreRun.{StoreRunEnds};
ghost use Rattle.store_calls.specs.Statuses.{leaves_sink_of};

use crate::opening::open_store;
use crate::status::StoreStatus;
use desk_calls::run_source;
use sms_base::{Sink, Source};
use sms_keeper::Stored;
use std::alloc::Global;

/// Answers the script of the source on the desk of the store and writes the text of the answers to the sink, with
/// `volumes` with the table of volumes behind it; it hands the keeper back (docs/manual/smsd.md, "Scripts").
pub fn store_run<S: Source, K: Sink, P: Stored>(
    alloc: Global,
    volumes: bool,
    src: &mut S,
    out: &mut K,
    keeper: P,
) -> (StoreStatus, P)
    ensures words { result.0 ≡ StoreStatus.Ran BadWords → ⊥ }
    ensures unread { (err : Refusal) → result.0 ≡ StoreStatus.Unopened err → src.new ≡ src.old }
    ensures unwritten { leaves_sink_of result.0 ≡ true → out.new ≡ out.old }
    ensures ends { StoreRunEnds P.Keeper P.damage volumes
        (seen_streams S.left S.reads S.read_faults K.taken K.write_faults src.old out.old)
        (seen_streams S.left S.reads S.read_faults K.taken K.write_faults src.new out.new)
        keeper result.1 result.0 }
{
    match open_store(alloc, keeper) {
        Ok(core) => {
            let (status, keeper) = run_source(alloc, volumes, src, out, core);
            (StoreStatus::Ran(status), keeper)
        }
        Err((keeper, err)) => (StoreStatus::Unopened(err), keeper),
    }
}
