//! The log of kept replies and the keeper.
ghost use Rattle.std.specs.Prelude.{◌≡◌, ◌≤◌, ◌<◌, ℕ, List, OnOk, OnErr, IfOk, MatchBool, true, false};
ghost use Rattle.desk_common.specs.Causes.{Rose};
ghost use Rattle.sms_keeper.specs.Log.{floor_in};
ghost use Rattle.sms_keeper.specs.Suits.{Suits};
ghost use Rattle.desk_records.specs.Logged.{IsDone, IsLogged, IsUntouched, SameLog, floor_after};

use sms_construct::{Reply, Request};
use sms_keeper::{Change, Effect, Keeper, KeeperErr, RequestLog};
use std::alloc::AllocError;

/// The log of kept replies and the keeper, which get each change together (docs/manual/records.md).
#[derive(Drop)]
pub struct Records<P: Keeper> {
    pub log: RequestLog,
    pub keeper: P,
}

impl<P: Keeper> Records<P> {
    /// Takes the room in the log that one commit needs. The log finds what it found, also where memory is wanting.
    pub fn reserve(&mut self) -> Result<(), AllocError>
        ensures reply_room { OnOk result (0 < self.new.log.reply_room) }
        ensures floor_room { OnOk result (0 < self.new.log.floor_room) }
        ensures log { SameLog self.old.log self.new.log }
        ensures keeper { self.new.keeper ≡ self.old.keeper }
    {
        self.log.reserve()
    }

    /// Commits a change to the keeper, and then to the log. `Ok(false)`: the keeper failed, and only then it counted a
    /// fault. Where it failed or memory was wanting, nothing else has changed; memory is taken by the keeper alone.
    pub fn commit(&mut self, change: Change) -> Result<bool, AllocError>
        requires suits { Suits change }
        requires reply_room { 0 < self.old.log.reply_room }
        requires floor_room { 0 < self.old.log.floor_room }
        ensures done { IfOk result (λ done. MatchBool done
            (IsDone change (P.told self.old.keeper) (P.told self.new.keeper) self.old.log self.new.log)
            (IsUntouched (P.told self.old.keeper) (P.told self.new.keeper) self.old.log self.new.log)) }
        ensures cause { IfOk result (λ done. done ≡ false → Rose (P.count self.old.keeper) (P.count self.new.keeper)) }
        ensures stands { IfOk result (λ done. done ≡ true → P.count self.new.keeper ≡ P.count self.old.keeper) }
        ensures err { OnErr result (IsUntouched (P.told self.old.keeper) (P.told self.new.keeper) self.old.log
            self.new.log) }
        ensures spared { OnErr result (P.count self.new.keeper ≡ P.count self.old.keeper) }
        ensures rises { P.count self.old.keeper ≤ P.count self.new.keeper }
    {
        match self.keeper.commit(&change) {
            Err(KeeperErr::Failed) => Ok(false),
            Err(KeeperErr::NoMemory) => Err(AllocError),
            Ok(()) => {
                keep_change(&mut self.log, change);
                Ok(true)
            }
        }
    }
}

// Raises the floor of an effect that has one.
fn raise_floor(log: &mut RequestLog, effect: &Effect)
    requires { 0 < log.old.floor_room }
    ensures floors { (job : List ℕ) → floor_in job log.new.floors ≡ floor_after effect.now log.old.floors job }
    ensures kept { log.new.kept ≡ log.old.kept }
    ensures room { log.new.reply_room ≡ log.old.reply_room }
{
    if let Effect::Floor { job, floor } = effect {
        log.purge(job, *floor);
    }
}

fn keep_change(log: &mut RequestLog, change: Change)
    requires reply_room { 0 < log.old.reply_room }
    requires floor_room { 0 < log.old.floor_room }
    ensures { IsLogged change log.old log.new }
{
    raise_floor(log, &change.effect);
    log.keep(change.request, change.place, change.reply);
}
