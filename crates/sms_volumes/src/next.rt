//! The volumes of a configuration that is to become active.
ghost use Rattle.std.specs.Prelude.{◌≡◌, ◌<◌, ◌≤◌, ◌^◌, bytes_eq, filter, find, length, map, slice_get, IfOk};
ghost use Rattle.std.specs.List.{AllByRecursion};
ghost use Rattle.sms_construct.specs.Configuration.{most_volumes};
ghost use Rattle.sms_construct.specs.declared.volume.VolumeDef.{VolumeDef as Defined};
ghost use Rattle.desk_law.specs.State.{DeskState};
ghost use Rattle.desk_law.specs.Lawful.{IsLawful};
ghost use Rattle.sms_volumes.specs.Holding.{AreVolumesOf};
ghost use Rattle.sms_volumes.specs.Inner.Making.{IsMade, next_group, status_of_group, status_of_volume};
ghost use Rattle.sms_volumes.specs.Next.{AreNext};
ghost use Rattle.sms_volumes.specs.Inner.Showing.{group_in};
ghost use Rattle.sms_volumes.specs.Viewing.{running_named};
ghost use Rattle.sms_volumes.specs.declared.active_volume.ActiveVolume.{ActiveVolume as Running};

use crate::active_group::ActiveGroup;
use crate::active_volume::ActiveVolume;
use crate::active_volumes::ActiveVolumes;
use deck_meaning::Config;
use dsn_mask::Name;
use sms_construct::{Status, StorGroup, VolumeDef};
use std::alloc::{AllocError, Global};
use track_ledger::Ledger;

// How many of the volumes belong to a storage group.
fn count_in(volumes: &[VolumeDef], name: &Name) -> u32
    requires { length volumes.now < 2 ^ 32 }
    ensures { result ≡ length (filter (λ volume. bytes_eq volume.group name.now) volumes.now) }
{
    let mut count = 0u32;
    for volume in volumes {
        if volume.group == *name {
            count += 1;
        }
    }
    count
}

// The place of the storage group of this name, past the last where there is none.
fn place_in(groups: &[StorGroup], name: &Name) -> usize
    ensures { slice_get groups.now result ≡ find (λ group. bytes_eq group.name name.now) groups.now }
{
    for place in 0..groups.len() {
        if groups[place].name == *name {
            return place;
        }
    }
    groups.len()
}

impl ActiveVolumes {
    // The present status of a storage group, or that of its deck where it isn't active.
    fn group_status(&self, group: &StorGroup) -> Status
        ensures { result ≡ status_of_group group.now (group_in group.now.name self.now.groups.items) }
    {
        match self.group_in(&group.name) {
            Some(running) => running.status,
            None => group.status,
        }
    }

    // The present status of a volume likewise.
    fn volume_status(&self, volume: &VolumeDef) -> Status
        ensures { result ≡ status_of_volume volume.now (running_named volume.now.volser self.now.volumes.items) }
    {
        match self.place_of(&volume.volser) {
            Some(place) => self.volumes[place].status,
            None => volume.status,
        }
    }

    // A storage group of a configuration with these volumes.
    fn next_group(&self, volumes: &[VolumeDef], group: &StorGroup) -> ActiveGroup
        requires { length volumes.now < 2 ^ 32 }
        ensures { result ≡ next_group self.now.groups.items volumes.now group.now }
    {
        ActiveGroup {
            group: *group,
            status: self.group_status(group),
            volumes: count_in(volumes, &group.name),
        }
    }

    // A volume of a configuration with these storage groups, all its tracks free.
    fn next_volume(
        &self,
        alloc: Global,
        groups: &[StorGroup],
        volume: &VolumeDef,
    ) -> Result<ActiveVolume, AllocError>
        requires { 0 < volume.now.tracks }
        ensures same { IfOk result (λ next. next.volume ≡ volume.now) }
        ensures made { IfOk result (IsMade self.now.volumes.items groups.now) }
    {
        Ok(ActiveVolume {
            volume: *volume,
            status: self.volume_status(volume),
            group: place_in(groups, &volume.group),
            ledger: Ledger::new(alloc, volume.tracks)?,
        })
    }

    // The storage groups of a configuration with these volumes.
    fn next_groups(
        &self,
        alloc: Global,
        groups: &[StorGroup],
        volumes: &[VolumeDef],
    ) -> Result<Vec<ActiveGroup>, AllocError>
        requires { length volumes.now < 2 ^ 32 }
        ensures { IfOk result (λ next. next.items ≡ map (next_group self.now.groups.items volumes.now) groups.now) }
    {
        let mut next = Vec::with_capacity(alloc, groups.len())?;
        for group in groups {
            if next.push(self.next_group(volumes, group)).is_err() {
                return Err(AllocError);
            }
        }
        Ok(next)
    }

    // The volumes of a configuration with these storage groups.
    fn next_volumes(
        &self,
        alloc: Global,
        groups: &[StorGroup],
        volumes: &[VolumeDef],
    ) -> Result<Vec<ActiveVolume>, AllocError>
        requires { AllByRecursion (λ (volume : Defined). 0 < volume.tracks) volumes.now }
        ensures same { IfOk result (λ next. map (λ (volume : Running). volume.volume) next.items ≡ volumes.now) }
        ensures made { IfOk result (λ next. AllByRecursion (IsMade self.now.volumes.items groups.now) next.items) }
    {
        let mut next = Vec::with_capacity(alloc, volumes.len())?;
        for volume in volumes {
            let made = self.next_volume(alloc, groups, volume)?;
            if next.push(made).is_err() {
                return Err(AllocError);
            }
        }
        Ok(next)
    }

    // For each of so many storage groups no place.
    fn no_places(alloc: Global, count: usize) -> Result<Vec<Option<usize>>, AllocError> {
        let mut places = Vec::with_capacity(alloc, count)?;
        for _ in 0..count {
            if places.push(None).is_err() {
                return Err(AllocError);
            }
        }
        Ok(places)
    }

    /// The storage groups and volumes of a configuration that is to become active after these, all their tracks
    /// free, or want of memory: each keeps its present status, and what isn't active has that of its deck
    /// (docs/manual/rules.md, "ACTIVATE").
    pub fn under(&self, alloc: Global, config: &Config) -> Result<ActiveVolumes, AllocError>
        ensures next { IfOk result (λ next. (s : DeskState) → IsLawful s → AreVolumesOf s self.now →
            AreNext s.statuses config.now next) }
        ensures few { length config.now.volumes ≤ most_volumes }
    {
        // Facts for the proof; nothing changes.
        let _deck = config.deck();
        Ok(ActiveVolumes {
            groups: self.next_groups(alloc, config.groups(), config.volumes())?,
            volumes: self.next_volumes(alloc, config.groups(), config.volumes())?,
            latest: ActiveVolumes::no_places(alloc, config.groups().len())?,
        })
    }
}
