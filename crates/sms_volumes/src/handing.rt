//! The volumes of the next configuration take over the tracks that data sets hold.
ghost use Rattle.std.specs.Prelude.{◌≡◌, ℕ, List, None, Some, bytes_eq, false};
ghost use Rattle.std.specs.List.{AllZip};
ghost use Rattle.sms_construct.specs.Configuration.{Configuration, IsConfiguration};
ghost use Rattle.desk_law.specs.State.{DeskState};
ghost use Rattle.desk_law.specs.Activation.{activated, first_barred};
ghost use Rattle.desk_law.specs.Lawful.{IsLawful};
ghost use Rattle.sms_volumes.specs.Inner.Handing.{AreApart, HasTaken};
ghost use Rattle.sms_volumes.specs.Holding.{AreVolumesOf};
ghost use Rattle.sms_volumes.specs.Next.{AreNext};
ghost use Rattle.sms_volumes.specs.Viewing.{running_named};
ghost use Rattle.sms_volumes.specs.declared.active_volume.ActiveVolume.{ActiveVolume as Running};

use crate::active_volume::ActiveVolume;
use crate::active_volumes::ActiveVolumes;
use std::mem::swap;

impl ActiveVolume {
    // Takes over what is held of a running volume, unless that has more tracks.
    fn take_over(&mut self, old: &mut ActiveVolume)
        ensures taken { HasTaken (Some old.old) self.old self.new }
        ensures named { old.new.volume ≡ old.old.volume }
    {
        if old.ledger.granted() + old.ledger.free() <= u64::from(self.volume.tracks) {
            swap(&mut self.ledger, &mut old.ledger);
            self.ledger.grow(self.volume.tracks);
        }
    }

    // Takes over what is held of the running volume of its serial, if there is one.
    fn take_from(&mut self, old: &mut ActiveVolumes)
        ensures taken { HasTaken (running_named self.old.volume.volser old.old.volumes.items) self.old self.new }
        ensures others { (volser : List ℕ) → bytes_eq self.old.volume.volser volser ≡ false →
            running_named volser old.new.volumes.items ≡ running_named volser old.old.volumes.items }
    {
        if let Some(place) = old.place_of(&self.volume.volser) {
            self.take_over(&mut old.volumes[place]);
        }
    }
}

// Each volume takes over what is held of the running volume of its serial.
fn take_each(volumes: &mut [ActiveVolume], old: &mut ActiveVolumes)
    ensures { AreApart volumes.old →
        AllZip (λ (before after : Running).
        HasTaken (running_named before.volume.volser old.old.volumes.items) before after) volumes.old volumes.new }
{
    for volume in volumes {
        volume.take_from(old);
    }
}

impl ActiveVolumes {
    /// The volumes of a configuration that becomes active take over from the old ones the tracks that data sets
    /// hold (docs/manual/rules.md, "ACTIVATE"). It takes no memory.
    pub fn take_over(&mut self, old: &mut ActiveVolumes)
        ensures { (s : DeskState) (config : Configuration) → IsLawful s → AreVolumesOf s old.old →
            AreNext s.statuses config self.old → first_barred s config ≡ None → IsConfiguration config →
            AreVolumesOf (activated s config) self.new }
    {
        take_each(&mut self.volumes, old);
    }
}
