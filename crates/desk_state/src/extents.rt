//! The extents of data sets.
ghost use Rattle.std.specs.Prelude.{◌≡◌, ◌<◌, ◌≤◌, ◌^◌, ◌++◌, length, nat_lt, IfOk, if◌then◌else◌};
ghost use Rattle.sms_construct.specs.Quantities.{rounded_up, tracks_in_managed};
ghost use Rattle.desk_law.specs.Extents.{extents_at, front_tracks, length_kept, multiple_at, pieces_on, volumes_of};
ghost use Rattle.desk_law.specs.Extents.{with_extents};
ghost use Rattle.desk_state.specs.Inner.Sums.{tracks_in};

use desk_common::{BORDER, Items, Shared};
use dsn_mask::Volser;
use sms_construct::{DataSet, Extent, Extents, TRACKS_IN_MANAGED};
use sms_volumes::lies_on;
use std::alloc::{AllocError, Global};
use track_ledger::Piece;

/// The tracks of the extents.
pub fn tracks_of(extents: &[Extent]) -> u64
    requires { length extents.now < 2 ^ 32 }
    ensures { result ≡ tracks_in extents.now }
{
    let mut tracks = 0u64;
    for extent in extents {
        tracks += length_of(extent);
    }
    tracks
}

fn length_of(extent: &Extent) -> u64
    ensures value { result ≡ extent.now.length }
    ensures small { result < 2 ^ 32 }
{
    u64::from(extent.length)
}

/// The first so many tracks, in the order of the extents; the last extent that is kept is cut in whole units of its
/// part of the volume. Or want of memory.
pub fn front_of(alloc: Global, extents: &[Extent], keep: u64) -> Result<Extents, AllocError>
    ensures { IfOk result (λ front. front ≡ front_tracks keep extents.now) }
{
    let mut front = Vec::with_capacity(alloc, extents.len())?;
    let mut left = keep;
    for extent in extents {
        if left == 0 {
            break;
        }
        if front.push(cut_to(extent, left)).is_err() {
            return Err(AllocError);
        }
        left = left.saturating_sub(u64::from(extent.length));
    }
    Ok(Items::from_vec(front))
}

/// Whether a track is freed where so many are kept, in the order of the extents. It takes no memory.
pub fn frees_any(extents: &[Extent], keep: u64) -> bool
    ensures { result ≡ nat_lt (tracks_in (front_tracks keep extents.now)) (tracks_in extents.now) }
{
    let mut left = keep;
    for extent in extents {
        if kept_of(extent, left) < extent.length {
            return true;
        }
        left = left.saturating_sub(u64::from(extent.length));
    }
    false
}

// The tracks that are kept of an extent, none where none is to be kept.
fn kept_of(extent: &Extent, keep: u64) -> u32
    ensures { result ≡ (if nat_lt 0 keep then length_kept keep extent.now else 0) }
{
    if keep == 0 {
        return 0;
    }
    length_kept(extent, keep)
}

// The extent when so many tracks are to be kept.
fn cut_to(extent: &Extent, keep: u64) -> Extent
    ensures { result ≡ record {
      volser = extent.now.volser;
      start = extent.now.start;
      length = length_kept keep extent.now;
    } }
{
    Extent {
        volser: extent.volser,
        start: extent.start,
        length: length_kept(extent, keep),
    }
}

// The tracks that are kept of an extent: these in whole units of its part, and never more than it has.
fn length_kept(extent: &Extent, keep: u64) -> u32
    ensures { result ≡ length_kept keep extent.now }
{
    let length = u64::from(extent.length);
    if keep >= length {
        return extent.length;
    }
    rounded_up(multiple_at(extent.start), keep).min(length) as u32
}

// In how many tracks a volume is cut from this track on.
fn multiple_at(track: u32) -> u64
    ensures value { result ≡ multiple_at track }
    ensures some { 1 ≤ result }
    ensures small { result ≤ tracks_in_managed }
{
    if track < BORDER {
        1
    } else {
        u64::from(TRACKS_IN_MANAGED)
    }
}

/// A number of tracks rounded up to whole units of so many.
pub fn rounded_up(multiple: u64, tracks: u64) -> u64
    requires some { 1 ≤ multiple }
    requires small { multiple ≤ tracks_in_managed }
    requires few { tracks < 2 ^ 32 }
    ensures { result ≡ rounded_up multiple tracks }
{
    (tracks + (multiple - 1)) / multiple * multiple
}

/// How many extents lie on the volume.
pub fn count_on(extents: &[Extent], volser: &Volser) -> usize
    ensures { result ≡ length (pieces_on volser.now extents.now) }
{
    let mut count = 0;
    for extent in extents {
        if extent.volser == *volser {
            count += 1;
        }
    }
    count
}

/// On how many volumes the extents lie.
pub fn count_volumes(extents: &[Extent]) -> usize
    ensures { result ≡ length (volumes_of extents.now) }
{
    let mut count = 0;
    for place in 0..extents.len() {
        if !lies_on(&extents[..place], &extents[place].volser) {
            count += 1;
        }
    }
    count
}

/// These pieces of the volume as extents, or want of memory.
pub fn extents_at(alloc: Global, volser: &Volser, pieces: &[Piece]) -> Result<Extents, AllocError>
    ensures { IfOk result (λ extents. extents ≡ extents_at volser.now pieces.now) }
{
    let mut extents = Vec::with_capacity(alloc, pieces.len())?;
    for piece in pieces {
        let extent = Extent {
            volser: *volser,
            start: piece.start,
            length: piece.length,
        };
        if extents.push(extent).is_err() {
            return Err(AllocError);
        }
    }
    Ok(Items::from_vec(extents))
}

/// The extents with the others behind them, or want of memory.
pub fn joined(alloc: Global, extents: &[Extent], others: &[Extent]) -> Result<Extents, AllocError>
    ensures { IfOk result (λ all. all ≡ extents.now ++ others.now) }
{
    let mut all = Vec::from_slice(alloc, extents)?;
    all.extend_from_slice(others)?;
    Ok(Items::from_vec(all))
}

/// The data set with these extents, of which so many tracks are used, or want of memory.
pub fn with_extents(
    alloc: Global,
    set: &DataSet,
    used: u32,
    extents: Extents,
) -> Result<Shared<DataSet>, AllocError>
    ensures { IfOk result (λ made. made ≡ with_extents set.now used extents) }
{
    let changed = DataSet {
        dsn: set.dsn,
        dataclas: set.dataclas,
        storclas: set.storclas,
        mgmtclas: set.mgmtclas,
        group: set.group,
        unit: set.unit,
        secondary: set.secondary,
        volumes: set.volumes,
        day: set.day,
        retpd: set.retpd,
        used,
        extents,
        eattr: set.eattr,
    };
    Shared::new(alloc, changed)
}
