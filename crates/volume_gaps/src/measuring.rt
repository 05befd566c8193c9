//! Volumes with the thresholds of their storage groups and their longest gaps.
ghost use Rattle.std.specs.Prelude.{◌≡◌, ◌++◌, ◌∷◌, [], IfOk, OnOk, map};
ghost use Rattle.std.specs.Option.{option_copied};
ghost use Rattle.desk_law.specs.Candidates.{high_of};
ghost use Rattle.desk_law.specs.Extents.{extents_of, pieces_on};
ghost use Rattle.volume_gaps.specs.ListedVolumes.{group_in, listed_volume, low_of};

use crate::longest::longest_gap;
use desk_common::Shared;
use dsn_mask::{Name, Volser};
use sms_construct::{DataSet, Extent, StorGroup, VolRow};
use std::alloc::{AllocError, Global};
use store_report::ListedVolume;
use track_ledger::Piece;

/// The extents of all data sets, data set by data set.
pub fn all_extents(alloc: Global, sets: &[Shared<DataSet>]) -> Result<Vec<Extent>, AllocError>
    ensures { IfOk result (λ extents. extents.items ≡ extents_of sets.entry.now) }
{
    let mut extents = Vec::new(alloc);
    let mut rest = sets;
    while let [set, others @ ..] = rest {
        extents.extend_from_slice(set.get().extents.as_slice())?;
        rest = others;
    }
    Ok(extents)
}

/// These volumes, each with the thresholds of its storage group and the longest gap that the extents leave there.
pub fn listed_volumes(
    alloc: Global,
    rows: &[VolRow],
    groups: &[StorGroup],
    extents: &[Extent],
) -> Result<Vec<ListedVolume>, AllocError>
    ensures { IfOk result (λ volumes. volumes.items ≡ map (listed_volume groups.now extents.now) rows.entry.now) }
{
    let mut volumes = Vec::new(alloc);
    let mut rest = rows;
    while let [row, others @ ..] = rest {
        volumes.push(listed_volume(alloc, row, groups, extents)?)?;
        rest = others;
    }
    Ok(volumes)
}

fn listed_volume(
    alloc: Global,
    row: &VolRow,
    groups: &[StorGroup],
    extents: &[Extent],
) -> Result<ListedVolume, AllocError>
    ensures { IfOk result (λ volume. volume ≡ listed_volume groups.now extents.now row.now) }
{
    let pieces = pieces_on(alloc, extents, &row.volser)?;
    let (high, low) = thresholds_of(groups, &row.group);
    Ok(ListedVolume {
        row: *row,
        high,
        low,
        longest_gap: longest_gap(row.capacity, pieces),
    })
}

// The thresholds of the storage group of this name, 0 where there is none.
fn thresholds_of(groups: &[StorGroup], name: &Name) -> (u8, u8)
    ensures high { result.0 ≡ high_of (group_in groups.now name.now) }
    ensures low { result.1 ≡ low_of (group_in groups.now name.now) }
{
    match group_in(groups, name) {
        Some(group) => (group.high, group.low),
        None => (0, 0),
    }
}

// The storage group of this name.
fn group_in<'a>(groups: &'a [StorGroup], name: &Name) -> Option<&'a StorGroup>
    ensures { option_copied result ≡ group_in groups.entry.now name.now }
{
    groups.iter().find(|group| group.name == *name)
}

// What these extents hold of a volume, in their order.
fn pieces_on(alloc: Global, extents: &[Extent], volser: &Volser) -> Result<Vec<Piece>, AllocError>
    ensures { IfOk result (λ pieces. pieces.items ≡ pieces_on volser.now extents.entry.now) }
{
    let mut pieces = Vec::new(alloc);
    let mut rest = extents;
    while let [extent, others @ ..] = rest {
        push_on(&mut pieces, extent, volser)?;
        rest = others;
    }
    Ok(pieces)
}

// Puts an extent that lies on the volume behind others.
fn push_on(pieces: &mut Vec<Piece>, extent: &Extent, volser: &Volser) -> Result<(), AllocError>
    ensures { OnOk result (pieces.new.items ≡ pieces.old.items ++ pieces_on volser.now (extent.now ∷ [])) }
{
    if extent.volser == *volser {
        pieces.push(Piece {
            start: extent.start,
            length: extent.length,
        })?;
    }
    Ok(())
}
