//! The rows that fit what was asked for.
ghost use Rattle.std.specs.Prelude.{◌≡◌, ◌++◌, IfOk, OnOk, bytes_eq, filter, flat_map, map};
ghost use Rattle.std.specs.List.{list_any};
ghost use Rattle.store_report.specs.Selecting.{extents_on, fits_group, fits_mask, fits_set, fits_volume, is_asked};
ghost use Rattle.store_report.specs.Selecting.{is_on, lies_on, row_of};

use crate::extent_row::ExtentRow;
use crate::selection::Selection;
use desk_common::Shared;
use dsn_mask::{Dsn, Mask, Name, Short, Volser};
use page_text::GroupRow;
use sms_construct::{DataSet, Extent, VolRow};
use std::alloc::{AllocError, Global};

/// The volumes that fit, in their order.
pub fn pick_volumes(
    alloc: Global,
    rows: &[VolRow],
    selection: &Selection,
) -> Result<Vec<VolRow>, AllocError>
    ensures { IfOk result (λ picked. picked.items ≡ filter (fits_volume selection.now) rows.entry.now) }
{
    let mut picked = Vec::new(alloc);
    let mut rest = rows;
    while let [row, others @ ..] = rest {
        if fits_volume(selection, row) {
            picked.push(*row)?;
        }
        rest = others;
    }
    Ok(picked)
}

/// The data sets that fit, in their order.
pub fn pick_sets<'a>(
    alloc: Global,
    sets: &'a [Shared<DataSet>],
    selection: &Selection,
) -> Result<Vec<&'a DataSet>, AllocError>
    ensures { IfOk result (λ picked.
        map (λ set. set.now) picked.items ≡ filter (fits_set selection.now) sets.entry.now) }
{
    let mut picked = Vec::new(alloc);
    let mut rest = sets;
    while let [shared, others @ ..] = rest {
        let set = shared.get();
        if fits_set(selection, set) {
            picked.push(set)?;
        }
        rest = others;
    }
    Ok(picked)
}

/// The extents of these data sets that lie on the volume, where one is asked for, data set by data set.
pub fn pick_extents(
    alloc: Global,
    sets: &[&DataSet],
    volume: &Option<Volser>,
) -> Result<Vec<ExtentRow>, AllocError>
    ensures { IfOk result (λ rows. rows.items ≡ flat_map (extents_on volume.now) (map (λ set. set.now) sets.entry.now)) }
{
    let mut rows = Vec::new(alloc);
    let mut rest = sets;
    while let [set, others @ ..] = rest {
        push_extents(&mut rows, *set, volume)?;
        rest = others;
    }
    Ok(rows)
}

// Puts the extents of a data set that lie on the volume behind others.
fn push_extents(
    rows: &mut Vec<ExtentRow>,
    set: &DataSet,
    volume: &Option<Volser>,
) -> Result<(), AllocError>
    ensures { OnOk result (rows.new.items ≡ rows.old.items ++ extents_on volume.now set.now) }
{
    push_rows(rows, &set.dsn, set.extents.as_slice(), volume)
}

// Puts those of these extents that lie on the volume behind others.
fn push_rows(
    rows: &mut Vec<ExtentRow>,
    dsn: &Dsn,
    extents: &[Extent],
    volume: &Option<Volser>,
) -> Result<(), AllocError>
    ensures { OnOk result (rows.new.items
        ≡ rows.old.items ++ map (row_of dsn.now) (filter (is_on volume.now) extents.entry.now)) }
{
    let mut rest = extents;
    while let [extent, others @ ..] = rest {
        if is_on(volume, extent) {
            rows.push(ExtentRow {
                dsn: *dsn,
                extent: *extent,
            })?;
        }
        rest = others;
    }
    Ok(())
}

/// Whether a storage group fits.
pub fn fits_group(selection: &Selection, row: &GroupRow) -> bool
    ensures { result ≡ fits_group selection.now row.now }
{
    is_group(&selection.group, &row.group)
}

fn fits_volume(selection: &Selection, row: &VolRow) -> bool
    ensures { result ≡ fits_volume selection.now row.now }
{
    is_group(&selection.group, &row.group) && is_volume(&selection.volume, &row.volser)
}

fn fits_set(selection: &Selection, set: &DataSet) -> bool
    ensures { result ≡ fits_set selection.now set.now }
{
    if !fits_mask(&selection.mask, &set.dsn) {
        return false;
    }
    is_group(&selection.group, &set.group) && lies_on(&selection.volume, set.extents.as_slice())
}

fn fits_mask(mask: &Option<Mask>, dsn: &Dsn) -> bool
    ensures { result ≡ fits_mask mask.now dsn.now }
{
    let Some(mask) = mask else {
        return true;
    };
    match Short::new(dsn.bytes()) {
        Some(value) => mask.matches(&value),
        None => false,
    }
}

fn is_group(asked: &Option<Name>, name: &Name) -> bool
    ensures { result ≡ is_asked asked.now name.now }
{
    match asked {
        Some(asked) => *name == *asked,
        None => true,
    }
}

fn is_volume(asked: &Option<Volser>, volser: &Volser) -> bool
    ensures { result ≡ is_asked asked.now volser.now }
{
    match asked {
        Some(asked) => *volser == *asked,
        None => true,
    }
}

// Whether an extent lies on the volume that is asked for.
fn is_on(volume: &Option<Volser>, extent: &Extent) -> bool
    ensures { result ≡ is_on volume.now extent.now }
{
    is_volume(volume, &extent.volser)
}

// Whether one of these extents lies on the volume that is asked for.
fn lies_on(volume: &Option<Volser>, extents: &[Extent]) -> bool
    ensures { result ≡ lies_on volume.now extents.now }
{
    match volume {
        Some(volser) => has_volume(extents, volser),
        None => true,
    }
}

fn has_volume(extents: &[Extent], volser: &Volser) -> bool
    ensures { result ≡ list_any (λ extent. bytes_eq extent.volser volser.now) extents.now }
{
    extents.iter().any(|extent| extent.volser == *volser)
}
