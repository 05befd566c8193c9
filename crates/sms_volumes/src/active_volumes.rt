//! The storage groups and volumes of the active configuration.
ghost use Rattle.desk_law.specs.State.{start_of};
ghost use Rattle.desk_law.specs.Records.{empty_opening};
ghost use Rattle.sms_volumes.specs.Holding.{AreVolumesOf};

use crate::active_group::ActiveGroup;
use crate::active_volume::ActiveVolume;
use std::alloc::Global;

/// The storage groups and volumes of the active configuration, each in its order, as they stand now. Where
/// nothing is active there are none.
#[derive(Drop)]
pub struct ActiveVolumes {
    pub groups: Vec<ActiveGroup>,
    pub volumes: Vec<ActiveVolume>,
    // For each storage group the place of the volume that was chosen last where it was listed first.
    pub(crate) latest: Vec<Option<usize>>,
}

impl ActiveVolumes {
    /// No storage groups and no volumes, as where nothing is active. It takes no memory.
    pub fn none(alloc: Global) -> Self
        ensures { AreVolumesOf (start_of empty_opening) result }
    {
        ActiveVolumes {
            groups: Vec::new(alloc),
            volumes: Vec::new(alloc),
            latest: Vec::new(alloc),
        }
    }
}
