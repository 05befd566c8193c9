//! The desk of a store.
ghost use Rattle.std.specs.Prelude.{◌≡◌, [], IfErr, IfOk};
ghost use Rattle.store_calls.specs.Opened.{IsUnopened, WasOpened};

use sms_core::Core;
use sms_keeper::{KeeperErr, Stored};
use sms_open::{OpenErr, reopen};
use std::alloc::Global;

/// A desk that goes on from the tables of the keeper, which is made ready first; or why there is none, with the keeper.
/// The tables stay as they are (docs/manual/records.md, "Going on").
pub fn open_store<P: Stored>(alloc: Global, mut keeper: P) -> Result<Core<P>, (P, OpenErr)>
    ensures opened { IfOk result (λ core. WasOpened P.Keeper P.damage keeper core.keeper core.opening) }
    ensures journal { IfOk result (λ core. core.journal ≡ []) }
    ensures mark { IfOk result (λ core. core.mark ≡ P.Keeper.count core.keeper) }
    ensures refused { IfErr result (λ back. IsUnopened P.Keeper P.damage keeper back.0 back.1) }
{
    match keeper.ready() {
        Ok(()) => reopen(alloc, keeper),
        Err(KeeperErr::Failed) => Err((keeper, OpenErr::Failed)),
        Err(KeeperErr::NoMemory) => Err((keeper, OpenErr::NoMemory)),
    }
}
