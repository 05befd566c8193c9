//! A desk that goes on from what its keeper has.
ghost use Rattle.std.specs.Prelude.{◌≡◌, [], None, IfErr, IfOk, IfSome};
ghost use Rattle.desk_common.specs.Causes.{Rose};
ghost use Rattle.sms_keeper.specs.Loading.{AreLoaded, StaysDamaged};
ghost use Rattle.sms_keeper.specs.Told.{Stays};
ghost use Rattle.sms_open.specs.Own.{AreOwn, SparesTables};
ghost use Rattle.sms_open.specs.Reopening.{IsOpened, IsOpenedAt, NamesRefusal, refusal_of_load, refusal_of_rows};

use crate::open_err::OpenErr;
use crate::rows_err::RowsErr;
use crate::testing::test_rows;
use sms_core::Core;
use sms_keeper::{LoadErr, Rows, Stored};
use std::alloc::Global;

// The greatest place of a found reply.
const MOST_PLACE: u64 = 4_611_686_018_427_387_904;

/// A desk that goes on from the tables of the keeper, which was made ready; or why there is none, with the keeper. The
/// tables stay as they are (docs/manual/records.md, "Going on"). Tables that a desk left are never refused for what
/// they hold.
pub fn reopen<P: Stored>(alloc: Global, keeper: P) -> Result<Core<P>, (P, OpenErr)>
    ensures opened { IfOk result (λ core. IsOpened (P.Keeper.told core.keeper) core.opening) }
    ensures undamaged { IfOk result (λ core. P.damage core.keeper ≡ None) }
    ensures journal { IfOk result (λ core. core.journal ≡ []) }
    ensures mark { IfOk result (λ core. core.mark ≡ P.Keeper.count keeper) }
    ensures kept { IfOk result (λ core. Stays (P.Keeper.told keeper) (P.Keeper.told core.keeper)) }
    ensures stands { IfOk result (λ core. P.Keeper.count core.keeper ≡ P.Keeper.count keeper) }
    ensures refused { IfErr result (λ back. NamesRefusal (P.Keeper.told back.0) (P.damage back.0) back.1) }
    ensures own { IfErr result (λ back. IfSome (P.Keeper.told back.0) (λ tables. AreOwn tables → SparesTables back.1)) }
    ensures left { IfErr result (λ back. Stays (P.Keeper.told keeper) (P.Keeper.told back.0)) }
    ensures damage_left { IfErr result (λ back. StaysDamaged (P.damage keeper) (P.damage back.0)) }
    ensures cause { IfErr result (λ back. back.1 ≡ OpenErr.Failed →
        Rose (P.Keeper.count keeper) (P.Keeper.count back.0)) }
    ensures unfailed { IfErr result (λ back. (back.1 ≡ OpenErr.Failed → ⊥) →
        P.Keeper.count back.0 ≡ P.Keeper.count keeper) }
{
    reopen_behind(alloc, keeper, 0)
}

/// The same, and its entries come behind this place too, at most behind 4,611,686,018,427,387,904.
pub fn reopen_behind<P: Stored>(
    alloc: Global,
    mut keeper: P,
    place: u64,
) -> Result<Core<P>, (P, OpenErr)>
    ensures opened { IfOk result (λ core. IsOpenedAt place (P.Keeper.told core.keeper) core.opening) }
    ensures undamaged { IfOk result (λ core. P.damage core.keeper ≡ None) }
    ensures journal { IfOk result (λ core. core.journal ≡ []) }
    ensures mark { IfOk result (λ core. core.mark ≡ P.Keeper.count keeper) }
    ensures kept { IfOk result (λ core. Stays (P.Keeper.told keeper) (P.Keeper.told core.keeper)) }
    ensures stands { IfOk result (λ core. P.Keeper.count core.keeper ≡ P.Keeper.count keeper) }
    ensures refused { IfErr result (λ back. NamesRefusal (P.Keeper.told back.0) (P.damage back.0) back.1) }
    ensures own { IfErr result (λ back. IfSome (P.Keeper.told back.0) (λ tables. AreOwn tables → SparesTables back.1)) }
    ensures left { IfErr result (λ back. Stays (P.Keeper.told keeper) (P.Keeper.told back.0)) }
    ensures damage_left { IfErr result (λ back. StaysDamaged (P.damage keeper) (P.damage back.0)) }
    ensures cause { IfErr result (λ back. back.1 ≡ OpenErr.Failed →
        Rose (P.Keeper.count keeper) (P.Keeper.count back.0)) }
    ensures unfailed { IfErr result (λ back. (back.1 ≡ OpenErr.Failed → ⊥) →
        P.Keeper.count back.0 ≡ P.Keeper.count keeper) }
{
    match keeper.load() {
        Ok(rows) => go_on(alloc, keeper, rows, place),
        Err(err) => Err((keeper, refusal_of_load(err))),
    }
}

// A desk that goes on from these rows, which the keeper loaded, and behind this place.
fn go_on<P: Stored>(
    alloc: Global,
    keeper: P,
    rows: Rows,
    place: u64,
) -> Result<Core<P>, (P, OpenErr)>
    requires loaded { IfSome (P.Keeper.told keeper) (λ tables. AreLoaded tables rows) }
    requires undamaged { P.damage keeper ≡ None }
    ensures opened { IfOk result (λ core. IsOpenedAt place (P.Keeper.told keeper) core.opening) }
    ensures keeper { IfOk result (λ core. core.keeper ≡ keeper) }
    ensures journal { IfOk result (λ core. core.journal ≡ []) }
    ensures mark { IfOk result (λ core. core.mark ≡ P.Keeper.count keeper) }
    ensures refused { IfErr result (λ back. NamesRefusal (P.Keeper.told keeper) (P.damage keeper) back.1) }
    ensures left { IfErr result (λ back. back.0 ≡ keeper) }
    ensures unfailed { IfErr result (λ back. back.1 ≡ OpenErr.Failed → ⊥) }
{
    let config = match test_rows(alloc, &rows) {
        Ok(config) => config,
        Err(err) => return Err((keeper, refusal_of_rows(err))),
    };
    let behind = place.min(MOST_PLACE);
    match Core::resume_behind(alloc, keeper, rows, config, behind) {
        Ok(core) => Ok(core),
        Err((keeper, _)) => Err((keeper, OpenErr::NoMemory)),
    }
}

// The same refusal.
fn refusal_of_load(err: LoadErr) -> OpenErr
    ensures { result ≡ refusal_of_load err }
{
    match err {
        LoadErr::Failed => OpenErr::Failed,
        LoadErr::Damaged(table, row) => OpenErr::Damaged(table, row),
        LoadErr::NoMemory => OpenErr::NoMemory,
    }
}

// The same refusal.
fn refusal_of_rows(err: RowsErr) -> OpenErr
    ensures { result ≡ refusal_of_rows err }
{
    match err {
        RowsErr::Unsound(number) => OpenErr::Unsound(number),
        RowsErr::NoMemory => OpenErr::NoMemory,
    }
}
