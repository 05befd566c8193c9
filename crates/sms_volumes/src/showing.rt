//! What is shown of storage groups and volumes.
ghost use Rattle.std.specs.Prelude.{◌≡◌, ◌==◌, ◌<◌, ◌^◌, length, map, not, option_map, IfOk};
ghost use Rattle.std.specs.Option.{option_copied};
ghost use Rattle.desk_law.specs.State.{DeskState};
ghost use Rattle.desk_law.specs.Display.{shown_volume, view_of_group};
ghost use Rattle.desk_law.specs.Volumes.{group_named, times_target, volume_named, volumes_in};
ghost use Rattle.sms_volumes.specs.Holding.{AreVolumesOf};
ghost use Rattle.sms_volumes.specs.Inner.Showing.{capacity_in, free_in, group_in, running_free, running_group};
ghost use Rattle.sms_volumes.specs.Inner.Showing.{running_row};

use crate::active_group::ActiveGroup;
use crate::active_volume::ActiveVolume;
use crate::active_volumes::ActiveVolumes;
use desk_common::Items;
use dsn_mask::{Name, Volser};
use sms_construct::{Target, View, VolRow, VolRows};
use std::alloc::{AllocError, Global};

impl ActiveVolume {
    // The volume as reports show it.
    fn row(&self) -> VolRow
        ensures { result ≡ running_row self.now }
    {
        VolRow {
            volser: self.volume.volser,
            group: self.volume.group,
            status: self.status,
            capacity: self.volume.tracks,
            free: self.free() as u32,
            extents: self.ledger.extents(),
        }
    }

    // Its free tracks.
    fn free(&self) -> u64
        ensures value { result ≡ running_free self.now }
        ensures small { result < 2 ^ 32 }
    {
        // A fact for the proof; nothing changes.
        let _granted = self.ledger.granted();
        self.ledger.free()
    }

    // All its tracks.
    fn tracks(&self) -> u64
        ensures value { result ≡ self.now.volume.tracks }
        ensures small { result < 2 ^ 32 }
    {
        u64::from(self.volume.tracks)
    }
}

// The tracks of the volumes of a storage group.
fn capacity_in(volumes: &[ActiveVolume], name: &Name) -> u64
    requires { length volumes.now < 2 ^ 32 }
    ensures { result ≡ capacity_in name.now volumes.now }
{
    let mut tracks = 0u64;
    for volume in volumes {
        if volume.volume.group == *name {
            tracks += volume.tracks();
        }
    }
    tracks
}

// Their free tracks.
fn free_in(volumes: &[ActiveVolume], name: &Name) -> u64
    requires { length volumes.now < 2 ^ 32 }
    ensures { result ≡ free_in name.now volumes.now }
{
    let mut tracks = 0u64;
    for volume in volumes {
        if volume.volume.group == *name {
            tracks += volume.free();
        }
    }
    tracks
}

impl ActiveVolumes {
    /// The volume of this serial as reports show it.
    pub fn volume(&self, volser: &Volser) -> Option<VolRow>
        ensures { (s : DeskState) → AreVolumesOf s self.now →
            result ≡ option_map (shown_volume s) (volume_named s volser.now) }
    {
        match self.place_of(volser) {
            Some(place) => Some(self.volumes[place].row()),
            None => None,
        }
    }

    /// All volumes as reports show them, in their order, or want of memory.
    pub fn rows(&self, alloc: Global) -> Result<VolRows, AllocError>
        ensures { IfOk result (λ rows. (s : DeskState) → AreVolumesOf s self.now →
            rows ≡ map (shown_volume s) (volumes_in s.active)) }
    {
        let mut rows = Vec::with_capacity(alloc, self.volumes.len())?;
        for volume in &self.volumes {
            if rows.push(volume.row()).is_err() {
                return Err(AllocError);
            }
        }
        Ok(Items::from_vec(rows))
    }

    /// Whether the active configuration has the storage group or the volume; a data set isn't in it.
    pub fn has(&self, target: &Target) -> bool
        ensures { (s : DeskState) → AreVolumesOf s self.now → (times_target s.active target.now == 0) ≡ not result }
    {
        match target {
            Target::Group(name) => self.group_in(name).is_some(),
            Target::Volume(volser) => self.place_of(volser).is_some(),
            Target::Set(_) => false,
        }
    }

    // The storage group of this name.
    pub(crate) fn group_in(&self, name: &Name) -> Option<&ActiveGroup>
        ensures { option_copied result ≡ group_in name.now self.now.groups.items }
    {
        self.groups.iter().find(|group| group.group.name == *name)
    }

    /// What DISPLAY shows of the storage group of this name (docs/manual/rules.md, "DISPLAY").
    pub fn group(&self, name: &Name) -> Option<View>
        requires few { length self.now.volumes.items < 2 ^ 32 }
        ensures { (s : DeskState) → AreVolumesOf s self.now →
            result ≡ option_map (view_of_group s) (group_named s name.now) }
    {
        match self.group_in(name) {
            Some(group) => Some(self.view_of(group)),
            None => None,
        }
    }

    fn view_of(&self, group: &ActiveGroup) -> View
        requires few { length self.now.volumes.items < 2 ^ 32 }
        ensures { result ≡ running_group self.now group.now }
    {
        View::Group {
            name: group.group.name,
            status: group.status,
            volumes: group.volumes,
            capacity: capacity_in(&self.volumes, &group.group.name),
            free: free_in(&self.volumes, &group.group.name),
        }
    }
}
