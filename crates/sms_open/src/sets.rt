//! Test 5: the data sets, each by itself.
ghost use Rattle.std.specs.Prelude.{◌≤◌, ◌<◌, ℕ, List, IfOk, length};
ghost use Rattle.std.specs.List.{AllByRecursion};
ghost use Rattle.sms_construct.specs.declared.volume.VolumeDef.{VolumeDef as VolumeOf};
ghost use Rattle.track_ledger.specs.Extents.{LiesInside};
ghost use Rattle.desk_common.specs.Limits.{most_extents};
ghost use Rattle.desk_law.specs.Extents.{piece_of, pieces_on};
ghost use Rattle.desk_law.specs.Lawful.{IsLawfulSet, IsManaged, IsWhole, LiesInPart};
ghost use Rattle.desk_law.specs.Volumes.{volumes_in};
ghost use Rattle.sms_open.specs.Inner.Targets.{AreTracks, number_on};
ghost use Rattle.sms_open.specs.Tests.{ArePlaced};
ghost use Rattle.sms_open.specs.Verdicts.{Tells};

use crate::meeting::are_once;
use crate::numbers::Numbers;
use deck_meaning::Config;
use desk_common::{BORDER, MAX_EXTENTS, Shared, TRACKS_IN_CYLINDER};
use sms_construct::{DataSet, Extent, TRACKS_IN_MANAGED, Unit, VolumeDef};
use std::alloc::{AllocError, Global};

fn is_managed(extent: &Extent) -> bool
    ensures { Tells (IsManaged extent.now) result }
{
    if extent.start < BORDER {
        return false;
    }
    if extent.start % TRACKS_IN_MANAGED != 0 {
        return false;
    }
    extent.length % TRACKS_IN_MANAGED == 0
}

fn is_in_part(extent: &Extent) -> bool
    ensures { Tells (LiesInPart extent.now) result }
{
    if u64::from(extent.start) + u64::from(extent.length) <= u64::from(BORDER) {
        return true;
    }
    is_managed(extent)
}

fn are_in_part(extents: &[Extent]) -> bool
    ensures { Tells (AllByRecursion LiesInPart extents.now) result }
{
    for extent in extents {
        if !is_in_part(extent) {
            return false;
        }
    }
    true
}

fn is_inside(tracks: &Numbers, extent: &Extent) -> bool
    ensures { Tells (LiesInside (number_on extent.now.volser tracks.now) (piece_of extent.now)) result }
{
    if extent.length == 0 {
        return false;
    }
    u64::from(extent.start) + u64::from(extent.length) <= u64::from(tracks.get(&extent.volser))
}

fn are_inside(tracks: &Numbers, extents: &[Extent]) -> bool
    ensures { Tells (AllByRecursion (λ extent. LiesInside (number_on extent.volser tracks.now) (piece_of extent))
        extents.now) result }
{
    for extent in extents {
        if !is_inside(tracks, extent) {
            return false;
        }
    }
    true
}

fn count_few(alloc: Global, extents: &[Extent]) -> Result<bool, AllocError>
    ensures { IfOk result (Tells ((volser : List ℕ) → length (pieces_on volser extents.now) ≤ most_extents)) }
{
    let mut counts = Numbers::new(alloc);
    for extent in extents {
        let count = counts.get(&extent.volser);
        if count >= MAX_EXTENTS {
            return Ok(false);
        }
        counts.put(extent.volser, count + 1)?;
    }
    Ok(true)
}

// Whether at most 16 of the extents lie on each volume.
fn are_few(alloc: Global, extents: &[Extent]) -> Result<bool, AllocError>
    ensures { IfOk result (Tells ((volser : List ℕ) → length (pieces_on volser extents.now) ≤ most_extents)) }
{
    if extents.len() <= MAX_EXTENTS as usize {
        return Ok(true);
    }
    count_few(alloc, extents)
}

fn is_whole(set: &DataSet) -> bool
    ensures { Tells (IsWhole set.now) result }
{
    match set.unit {
        Unit::Trk => true,
        Unit::Cyl => set.secondary % TRACKS_IN_CYLINDER == 0,
    }
}

// Whether the data set may stand on volumes with so many tracks.
fn is_lawful(alloc: Global, tracks: &Numbers, set: &DataSet) -> Result<bool, AllocError>
    ensures { (volumes : List VolumeOf) → AreTracks volumes tracks.now →
        IfOk result (Tells (IsLawfulSet volumes set.now)) }
{
    if set.extents.is_empty() {
        return Ok(false);
    }
    if !are_inside(tracks, set.extents.as_slice()) {
        return Ok(false);
    }
    if !are_in_part(set.extents.as_slice()) {
        return Ok(false);
    }
    if !is_whole(set) {
        return Ok(false);
    }
    are_few(alloc, set.extents.as_slice())
}

fn are_lawful(alloc: Global, tracks: &Numbers, sets: &[Shared<DataSet>]) -> Result<bool, AllocError>
    ensures { (volumes : List VolumeOf) → AreTracks volumes tracks.now →
        IfOk result (Tells (AllByRecursion (IsLawfulSet volumes) sets.now)) }
{
    for set in sets {
        if !is_lawful(alloc, tracks, set.get())? {
            return Ok(false);
        }
    }
    Ok(true)
}

fn tracks_on(alloc: Global, volumes: &[VolumeDef]) -> Result<Numbers, AllocError>
    ensures { IfOk result (AreTracks volumes.now) }
{
    let mut tracks = Numbers::new(alloc);
    for place in 0..volumes.len() {
        let volume = &volumes[volumes.len() - 1 - place];
        tracks.put(volume.volser, volume.tracks)?;
    }
    Ok(tracks)
}

fn tracks_under(alloc: Global, active: &Option<Config>) -> Result<Numbers, AllocError>
    ensures { IfOk result (AreTracks (volumes_in active.now)) }
{
    match active {
        Some(config) => tracks_on(alloc, config.volumes()),
        None => Ok(Numbers::new(alloc)),
    }
}

/// Whether each data set may stand in the configuration, and no track of a volume is held twice; or want of memory.
/// Without a configuration there must be none.
pub fn are_placed(
    alloc: Global,
    active: &Option<Config>,
    sets: &[Shared<DataSet>],
) -> Result<bool, AllocError>
    ensures { IfOk result (Tells (ArePlaced active.now sets.now)) }
{
    let tracks = tracks_under(alloc, active)?;
    if !are_lawful(alloc, &tracks, sets)? {
        return Ok(false);
    }
    are_once(alloc, sets)
}
