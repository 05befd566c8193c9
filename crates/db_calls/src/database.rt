//! The top call of the desk over a stored keeper.
ghost use Rattle.std.specs.Prelude.{◌≡◌, ◌↔◌, None, Some, ℕ, List, true, map, string_bytes};
ghost use Rattle.sms_keeper.specs.Loading.{SameDamage, StaysDamaged};
ghost use Rattle.sms_open.specs.Reopening.{NamesRefusal};
ghost use Rattle.sms_open.specs.declared.open_err.OpenErr.{OpenErr as Refusal};
ghost use Rattle.desk_calls.specs.declared.status.RunStatus.TheVariants.{BadWords};
ghost use Rattle.db_calls.specs.DbEnds.{DbEnds, is_told, leaves_sink_of};
ghost use Rattle.db_calls.specs.DbWords.{database_in};
ghost use Rattle.sms_base.specs.Observed.{seen_streams};

use crate::status::DbStatus;
use crate::words::database_asked;
use desk_calls::{RunStatus, run_source};
use sms_base::{Sink, Source};
use sms_keeper::{KeeperErr, Stored};
use sms_open::{OpenErr, reopen};
use std::alloc::Global;

/// Answers the script of the source on a desk that goes on from the keeper's tables, which are made ready first, and
/// writes the text of the answers to the sink; it hands the keeper back. The words name a file, which this call
/// doesn't open: the keeper stands on it (docs/manual/script.md, "The program").
pub fn db_main<S: Source, K: Sink, P: Stored>(
    alloc: Global,
    words: &[String],
    src: &mut S,
    out: &mut K,
    keeper: P,
) -> (DbStatus, P)
    ensures words { result.0 ≡ DbStatus.Ran BadWords ↔ (database_in (map string_bytes words.now) ≡ None) }
    ensures unasked { result.0 ≡ DbStatus.Ran BadWords → src.new ≡ src.old }
    ensures unread { result.0 ≡ DbStatus.StoreFault → src.new ≡ src.old }
    ensures unopened { (err : Refusal) → result.0 ≡ DbStatus.Store err → src.new ≡ src.old }
    ensures refused { (err : Refusal) → result.0 ≡ DbStatus.Store err →
        (is_told err ≡ true) × NamesRefusal (P.Keeper.told result.1) (P.damage result.1) err }
    ensures damage { (err : Refusal) → result.0 ≡ DbStatus.Store err →
        SameDamage (P.damage keeper) (P.damage result.1) }
    ensures unwritten { leaves_sink_of result.0 ≡ true → out.new ≡ out.old }
    ensures unrun { result.0 ≡ DbStatus.Ran BadWords → result.1 ≡ keeper }
    ensures ends { (file : List ℕ) → database_in (map string_bytes words.now) ≡ Some file → DbEnds P.Keeper P.damage
        (seen_streams S.left S.reads S.read_faults K.taken K.write_faults src.old out.old)
        (seen_streams S.left S.reads S.read_faults K.taken K.write_faults src.new out.new)
        keeper result.1 result.0 }
{
    if database_asked(words).is_none() {
        return (DbStatus::Ran(RunStatus::BadWords), keeper);
    }
    run_stored(alloc, src, out, keeper)
}

// The same where the words name a file.
fn run_stored<S: Source, K: Sink, P: Stored>(
    alloc: Global,
    src: &mut S,
    out: &mut K,
    mut keeper: P,
) -> (DbStatus, P)
    ensures words { result.0 ≡ DbStatus.Ran BadWords → ⊥ }
    ensures unread { result.0 ≡ DbStatus.StoreFault → src.new ≡ src.old }
    ensures unopened { (err : Refusal) → result.0 ≡ DbStatus.Store err → src.new ≡ src.old }
    ensures refused { (err : Refusal) → result.0 ≡ DbStatus.Store err →
        (is_told err ≡ true) × NamesRefusal (P.Keeper.told result.1) (P.damage result.1) err }
    ensures damage { (err : Refusal) → result.0 ≡ DbStatus.Store err →
        SameDamage (P.damage keeper) (P.damage result.1) }
    ensures unwritten { leaves_sink_of result.0 ≡ true → out.new ≡ out.old }
    ensures ends { DbEnds P.Keeper P.damage
        (seen_streams S.left S.reads S.read_faults K.taken K.write_faults src.old out.old)
        (seen_streams S.left S.reads S.read_faults K.taken K.write_faults src.new out.new)
        keeper result.1 result.0 }
{
    match keeper.ready() {
        Ok(()) => run_ready(alloc, src, out, keeper),
        Err(KeeperErr::Failed) => (DbStatus::StoreFault, keeper),
        Err(KeeperErr::NoMemory) => (DbStatus::Ran(RunStatus::NoMemory), keeper),
    }
}

// The same over a keeper that was made ready.
fn run_ready<S: Source, K: Sink, P: Stored>(
    alloc: Global,
    src: &mut S,
    out: &mut K,
    keeper: P,
) -> (DbStatus, P)
    ensures words { result.0 ≡ DbStatus.Ran BadWords → ⊥ }
    ensures unread { result.0 ≡ DbStatus.StoreFault → src.new ≡ src.old }
    ensures unopened { (err : Refusal) → result.0 ≡ DbStatus.Store err → src.new ≡ src.old }
    ensures refused { (err : Refusal) → result.0 ≡ DbStatus.Store err →
        (is_told err ≡ true) × NamesRefusal (P.Keeper.told result.1) (P.damage result.1) err }
    ensures damage { (err : Refusal) → result.0 ≡ DbStatus.Store err →
        StaysDamaged (P.damage keeper) (P.damage result.1) }
    ensures unwritten { leaves_sink_of result.0 ≡ true → out.new ≡ out.old }
    ensures ends { DbEnds P.Keeper P.damage
        (seen_streams S.left S.reads S.read_faults K.taken K.write_faults src.old out.old)
        (seen_streams S.left S.reads S.read_faults K.taken K.write_faults src.new out.new)
        keeper result.1 result.0 }
{
    match reopen(alloc, keeper) {
        Ok(core) => {
            let (status, keeper) = run_source(alloc, false, src, out, core);
            (DbStatus::Ran(status), keeper)
        }
        Err((keeper, OpenErr::Failed)) => (DbStatus::StoreFault, keeper),
        Err((keeper, OpenErr::NoMemory)) => (DbStatus::Ran(RunStatus::NoMemory), keeper),
        Err((keeper, err)) => (DbStatus::Store(err), keeper),
    }
}
