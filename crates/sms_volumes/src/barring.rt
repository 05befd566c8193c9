//! Which volume bars a configuration.
ghost use Rattle.std.specs.Prelude.{◌≡◌, option_map};
ghost use Rattle.std.specs.Option.{option_copied};
ghost use Rattle.sms_construct.specs.declared.volume.VolumeDef.{VolumeDef as Defined};
ghost use Rattle.desk_law.specs.State.{DeskState};
ghost use Rattle.desk_law.specs.Activation.{first_barred};
ghost use Rattle.desk_law.specs.Volumes.{tracks_of};
ghost use Rattle.sms_volumes.specs.Inner.Barring.{bars, running_barred};
ghost use Rattle.sms_volumes.specs.Holding.{AreVolumesOf};

use crate::active_volume::ActiveVolume;
use crate::active_volumes::ActiveVolumes;
use deck_meaning::Config;
use dsn_mask::Volser;
use sms_construct::VolumeDef;

// The tracks of a volume, 0 where there is none such.
fn tracks_of(volumes: &[VolumeDef], volser: &Volser) -> u32
    ensures { result ≡ tracks_of volser.now volumes.now }
{
    for volume in volumes {
        if volume.volser == *volser {
            return volume.tracks;
        }
    }
    0
}

impl ActiveVolume {
    // Whether the volume bars a configuration with these volumes.
    fn bars(&self, others: &[VolumeDef]) -> bool
        ensures { result ≡ bars others.now self.now }
    {
        self.ledger.extents() > 0 && tracks_of(others, &self.volume.volser) < self.volume.tracks
    }
}

// The first volume that bars a configuration with these volumes.
fn first_barred<'a>(volumes: &'a [ActiveVolume], others: &[VolumeDef]) -> Option<&'a ActiveVolume>
    ensures { option_copied result ≡ running_barred others.now volumes.entry.now }
{
    volumes.iter().find(|volume| volume.bars(others))
}

impl ActiveVolumes {
    /// The first volume, in byte order, that holds an extent and that the configuration doesn't have, or with
    /// fewer tracks (docs/manual/rules.md, "ACTIVATE").
    pub fn barred(&self, config: &Config) -> Option<Volser>
        ensures { (s : DeskState) → AreVolumesOf s self.now →
            result ≡ option_map (λ (volume : Defined). volume.volser) (first_barred s config.now) }
    {
        match first_barred(&self.volumes, config.volumes()) {
            Some(volume) => Some(volume.volume.volser),
            None => None,
        }
    }
}
