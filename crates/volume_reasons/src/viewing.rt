//! The candidate volumes as they stand.
ghost use Rattle.std.specs.Prelude.{◌≡◌, ◌≤◌, ◌<◌, ◌++◌, ◌∷◌, [], Some, bytes_eq, filter, length, map, slice_get};
ghost use Rattle.std.specs.Prelude.{IfOk, OnOk};
ghost use Rattle.std.specs.List.{list_any};
ghost use Rattle.desk_common.specs.Limits.{most_groups_set};
ghost use Rattle.desk_law.specs.Candidates.{tier_among, view_of};
ghost use Rattle.desk_law.specs.Lawful.{IsLawful};
ghost use Rattle.desk_law.specs.State.{DeskState};
ghost use Rattle.desk_law.specs.Volumes.{volumes_in};
ghost use Rattle.sms_volumes.specs.Asking.{IsAsked, ask_of};
ghost use Rattle.sms_volumes.specs.Holding.{AreVolumesOf, StandForSome};
ghost use Rattle.sms_volumes.specs.declared.active_volume.ActiveVolume.{ActiveVolume as Running};
ghost use Rattle.volume_reasons.specs.Inner.Views.{is_listed, listed_among, view_as};

use dsn_mask::Name;
use sms_construct::VolumeDef;
use sms_volumes::{ActiveGroup, ActiveVolume, ActiveVolumes, Asked};
use std::alloc::{AllocError, Global};
use volume_lists::VolView;

/// The volumes of these storage groups as they stand when one is to be chosen for what is asked.
pub fn views_of(
    alloc: Global,
    volumes: &ActiveVolumes,
    groups: &[Name],
    asked: &Asked<'_>,
) -> Result<Vec<VolView>, AllocError>
    requires asked { IsAsked asked.now }
    requires stand { StandForSome volumes.now }
    ensures { IfOk result (λ views. (s : DeskState) → IsLawful s → AreVolumesOf s volumes.now →
        views.items ≡ map (view_of s (ask_of asked.now)) (filter (is_listed groups.now) (volumes_in s.active))) }
{
    let mut views = Vec::new(alloc);
    for place in 0..volumes.volumes.len() {
        look_at(&mut views, volumes, place, groups, asked)?;
    }
    Ok(views)
}

// Puts the volume at a place behind the others, where it is one of these storage groups.
fn look_at(
    views: &mut Vec<VolView>,
    volumes: &ActiveVolumes,
    place: usize,
    groups: &[Name],
    asked: &Asked<'_>,
) -> Result<(), AllocError>
    requires place { place < length volumes.now.volumes.items }
    requires asked { IsAsked asked.now }
    requires stand { StandForSome volumes.now }
    ensures { OnOk result ((s : DeskState) (volume : Running) → IsLawful s → AreVolumesOf s volumes.now →
        slice_get volumes.now.volumes.items place ≡ Some volume →
        views.new.items ≡ views.old.items ++
        map (view_of s (ask_of asked.now)) (listed_among groups.now (volume ∷ []))) }
{
    if !is_listed(groups, &volumes.volumes[place].volume) {
        return Ok(());
    }
    let Some(view) = view_at(volumes, place, asked) else {
        return Err(AllocError);
    };
    views.push(view)?;
    Ok(())
}

fn is_listed(groups: &[Name], volume: &VolumeDef) -> bool
    ensures { result ≡ is_listed groups.now volume.now }
{
    is_among(groups, volume.group.bytes())
}

fn is_among(groups: &[Name], name: &[u8]) -> bool
    ensures { result ≡ list_any (bytes_eq name.now) groups.now }
{
    groups.iter().any(|group| name == group.bytes())
}

// The volume at a place as it stands; there is its storage group.
fn view_at(volumes: &ActiveVolumes, place: usize, asked: &Asked<'_>) -> Option<VolView>
    requires place { place < length volumes.now.volumes.items }
    requires asked { IsAsked asked.now }
    requires stand { StandForSome volumes.now }
    ensures { (s : DeskState) (volume : Running) → IsLawful s → AreVolumesOf s volumes.now →
        slice_get volumes.now.volumes.items place ≡ Some volume →
        result ≡ Some (view_of s (ask_of asked.now) volume.volume) }
{
    let fits = volumes.plan(place, asked, 0).is_some();
    let volume = &volumes.volumes[place];
    let group = volumes.groups.get(volume.group)?;
    Some(view_as(volume, group, asked, fits))
}

// The volume in its storage group, with room for what is asked or without.
fn view_as(volume: &ActiveVolume, group: &ActiveGroup, asked: &Asked<'_>, fits: bool) -> VolView
    requires { length asked.now.tiers.now ≤ most_groups_set }
    ensures { result ≡ view_as asked.now volume.now group.now fits }
{
    VolView {
        volser: volume.volume.volser,
        group: volume.volume.group,
        group_status: group.status,
        status: volume.status,
        overflow: group.group.overflow,
        high: group.group.high,
        capacity: volume.volume.tracks,
        granted: volume.ledger.granted() as u32,
        group_volumes: group.volumes,
        fits,
        tier: tier_among(asked.tiers, &volume.volume.group),
    }
}

// The position of the storage group among these, 0 where there are none.
fn tier_among(tiers: &[Name], name: &Name) -> u8
    requires { length tiers.now ≤ most_groups_set }
    ensures { result ≡ tier_among tiers.now name.now }
{
    let mut tier = 0;
    for group in tiers {
        if *group == *name {
            return tier;
        }
        tier += 1;
    }
    tier
}
