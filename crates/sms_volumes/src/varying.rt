//! Statuses are varied.
ghost use Rattle.std.specs.Prelude.{◌≡◌, if◌then◌else◌};
ghost use Rattle.std.specs.List.{AllZip};
ghost use Rattle.desk_law.specs.State.{DeskState, with_status};
ghost use Rattle.desk_law.specs.Lawful.{IsLawful};
ghost use Rattle.sms_volumes.specs.Holding.{AreVolumesOf};
ghost use Rattle.sms_volumes.specs.Inner.Varied.{varied_group, varied_volume};

use crate::active_group::ActiveGroup;
use crate::active_volume::ActiveVolume;
use crate::active_volumes::ActiveVolumes;
use dsn_mask::{Name, Volser};
use sms_construct::{Status, Target};

// This status where the names are equal, and else the old one.
fn status_for(same: bool, status: Status, old: Status) -> Status
    ensures { result ≡ (if same then status else old) }
{
    if same { status } else { old }
}

impl ActiveGroup {
    // The group gets the status where it has the name.
    fn vary(&mut self, name: &Name, status: Status)
        ensures { self.new ≡ varied_group name.now status self.old }
    {
        self.status = status_for(self.group.name == *name, status, self.status);
    }
}

impl ActiveVolume {
    // The volume gets the status where it has the serial.
    fn vary(&mut self, volser: &Volser, status: Status)
        ensures { self.new ≡ varied_volume volser.now status self.old }
    {
        self.status = status_for(self.volume.volser == *volser, status, self.status);
    }
}

fn vary_groups(groups: &mut [ActiveGroup], name: &Name, status: Status)
    ensures { AllZip (λ before after. after ≡ varied_group name.now status before) groups.old groups.new }
{
    for group in groups {
        group.vary(name, status);
    }
}

fn vary_volumes(volumes: &mut [ActiveVolume], volser: &Volser, status: Status)
    ensures { AllZip (λ before after. after ≡ varied_volume volser.now status before) volumes.old volumes.new }
{
    for volume in volumes {
        volume.vary(volser, status);
    }
}

impl ActiveVolumes {
    /// The storage group or the volume gets this status (docs/manual/rules.md, "VARY"). It takes no memory.
    pub fn vary(&mut self, target: &Target, status: Status)
        ensures { (s : DeskState) → IsLawful s → AreVolumesOf s self.old →
            AreVolumesOf (with_status s target.now status) self.new }
    {
        match target {
            Target::Group(name) => vary_groups(&mut self.groups, name, status),
            Target::Volume(volser) => vary_volumes(&mut self.volumes, volser, status),
            Target::Set(_) => (),
        }
    }
}
