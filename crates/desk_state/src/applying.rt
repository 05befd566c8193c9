//! What was decided is done.
ghost use Rattle.std.specs.Prelude.{◌≡◌, ◌<◌, ℕ, List, IfSome};
ghost use Rattle.std.specs.Option.{option_copied};
ghost use Rattle.sms_construct.specs.declared.data_set.DataSet.{DataSet as Catalogued};
ghost use Rattle.sms_keeper.specs.declared.status_row.StatusRow.{StatusRow as Row};
ghost use Rattle.desk_law.specs.State.{DeskState, set_named, with_set, with_status, without_name};
ghost use Rattle.desk_law.specs.Activation.{activated};
ghost use Rattle.desk_law.specs.Extents.{extents_named};
ghost use Rattle.desk_law.specs.Lawful.{IsLawful};
ghost use Rattle.desk_records.specs.Effects.{state_with};
ghost use Rattle.sms_volumes.specs.Changing.{IsFront, IsReadyAt, LiesOnSome};
ghost use Rattle.sms_volumes.specs.Holding.{AreVolumesOf};
ghost use Rattle.desk_state.specs.Catalog.{set_in};
ghost use Rattle.desk_state.specs.Deeds.{Fits, HasFront, HasMore, IsNext, IsPossible, config_of, effect_of};
ghost use Rattle.desk_state.specs.Standing.{IsRunning, IsSomeState};

use crate::deed::Deed;
use crate::running::Running;
use deck_meaning::Config;
use desk_common::Shared;
use dsn_mask::Dsn;
use sms_construct::{DataSet, Status, Target};
use sms_volumes::ActiveVolumes;
use track_ledger::Piece;

// What was catalogued under the name, if anything, keeps the front of its tracks.
fn trim(volumes: &mut ActiveVolumes, old: Option<&Shared<DataSet>>, kept: &DataSet)
    requires lies { IfSome (option_copied old) (λ (set : Catalogued). LiesOnSome volumes.old set.extents) }
    requires front { IfSome (option_copied old) (λ (set : Catalogued). IsFront kept.now.extents set.extents) }
    ensures { (s : DeskState) → IsLawful s → AreVolumesOf s volumes.old →
        option_copied old.entry ≡ set_named kept.now.dsn s.sets → HasFront s.sets kept.now →
        AreVolumesOf (with_set s kept.now) volumes.new }
{
    if let Some(old) = old {
        volumes.trim(old.get().extents.as_slice(), kept.extents.as_slice());
    }
}

// What was catalogued under the name, if anything, gives all its tracks back.
fn release(volumes: &mut ActiveVolumes, old: Option<&Shared<DataSet>>)
    requires { IfSome (option_copied old) (λ (set : Catalogued). LiesOnSome volumes.old set.extents) }
    ensures { (s : DeskState) (dsn : List ℕ) → IsLawful s → AreVolumesOf s volumes.old →
        option_copied old.entry ≡ set_named dsn s.sets → AreVolumesOf (without_name s dsn) volumes.new }
{
    if let Some(old) = old {
        volumes.release(old.get().extents.as_slice());
    }
}

impl Running {
    // The data set gets these pieces of the volume at the place, and is put in place of the one of its name.
    fn get(&mut self, set: Shared<DataSet>, place: usize, pieces: &[Piece])
        requires ready { IsReadyAt self.old.volumes place pieces.now }
        requires room { 0 < self.old.catalog.room }
        ensures { (s : DeskState) → IsLawful s → IsRunning s self.old → HasMore s.sets self.old set place pieces.now →
            IsRunning (with_set s set) self.new }
    {
        self.volumes.install(place, pieces);
        self.catalog.put(set);
    }

    // The data set, which lies as before, is put in place of the one of its name.
    fn note(&mut self, set: Shared<DataSet>)
        requires room { 0 < self.old.catalog.room }
        ensures { (s : DeskState) → IsLawful s → IsRunning s self.old → set.extents ≡ extents_named set.dsn s.sets →
            IsRunning (with_set s set) self.new }
    {
        self.catalog.put(set);
    }

    // The data set, which keeps the front of its tracks, is put in place of the one of its name.
    fn keep(&mut self, set: Shared<DataSet>)
        requires stands { IsSomeState self.old }
        requires front { IfSome (set_in set.dsn self.old.catalog.sets)
            (λ (old : Catalogued). IsFront set.extents old.extents) }
        requires room { 0 < self.old.catalog.room }
        ensures { (s : DeskState) → IsLawful s → IsRunning s self.old → HasFront s.sets set →
            IsRunning (with_set s set) self.new }
    {
        let kept = set.get();
        trim(&mut self.volumes, self.catalog.get(&kept.dsn), kept);
        self.catalog.put(set);
    }

    // The data set of this name is dropped, and its tracks are free.
    fn remove(&mut self, dsn: &Dsn)
        requires stands { IsSomeState self.old }
        ensures { (s : DeskState) → IsLawful s → IsRunning s self.old → IsRunning (without_name s dsn.now) self.new }
    {
        release(&mut self.volumes, self.catalog.get(dsn));
        self.catalog.remove(dsn);
    }

    // The configuration becomes active, and its volumes take over what the old ones hold.
    fn become_active(&mut self, count: u64, config: Shared<Config>, volumes: ActiveVolumes)
        ensures { (s : DeskState) (statuses : List Row) → IsLawful s → IsRunning s self.old →
            IsNext s count config volumes statuses → IsRunning (activated s config) self.new }
    {
        let mut volumes = volumes;
        volumes.take_over(&mut self.volumes);
        self.volumes = volumes;
        self.config = Some(config);
        self.activations = count;
    }

    // The storage group or the volume gets this status.
    fn vary(&mut self, target: &Target, status: Status)
        ensures { (s : DeskState) → IsLawful s → IsRunning s self.old →
            IsRunning (with_status s target.now status) self.new }
    {
        self.volumes.vary(target, status);
    }

    /// Does what was decided. It takes no memory: the room for it was taken before.
    pub fn apply(&mut self, deed: Deed)
        requires stands { IsSomeState self.old }
        requires possible { IsPossible self.old deed }
        requires room { 0 < self.old.catalog.room }
        ensures { (s : DeskState) → IsLawful s → IsRunning s self.old → Fits s self.old deed →
            IsRunning (state_with s (effect_of deed) (config_of deed)) self.new }
    {
        match deed {
            Deed::Nothing | Deed::Raise { .. } => (),
            Deed::Get { set, place, pieces } => self.get(set, place, pieces.as_slice()),
            Deed::Note { set } => self.note(set),
            Deed::Keep { set } => self.keep(set),
            Deed::Remove { dsn } => self.remove(&dsn),
            Deed::Become {
                count,
                config,
                volumes,
                ..
            } => self.become_active(count, config, volumes),
            Deed::Vary { target, status } => self.vary(&target, status),
        }
    }
}
