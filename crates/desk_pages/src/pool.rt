//! Pages of storage groups and volumes.
ghost use Rattle.std.specs.Prelude.{◌≡◌, IfOk, bytes_eq, find, take};
ghost use Rattle.std.specs.Option.{option_copied};
ghost use Rattle.desk_law.specs.State.{DeskState};
ghost use Rattle.desk_law.specs.Volumes.{volume_named};
ghost use Rattle.desk_pages.specs.DeskPages.{IsVolumePage, ShowsTracks, groups_page, next_of, tracks_page};
ghost use Rattle.desk_pages.specs.DeskPages.{volumes_page};
ghost use Rattle.desk_pages.specs.Listing.{most_shown};

use crate::grouping::shown_groups;
use crate::listing::MOST_SHOWN;
use crate::lying::{extents_on, gaps_beside};
use crate::said::{refused, shown};
use crate::shown_desk::ShownDesk;
use dsn_mask::Volser;
use http_flow::{Page, PageStatus};
use page_text::{SetExtent, shown_groups_body, tracks_body, volumes_body};
use sms_construct::VolRow;
use std::alloc::{AllocError, Global};

/// All storage groups.
pub fn groups<D: ShownDesk>(alloc: Global, desk: &D) -> Result<Page, AllocError>
    ensures { IfOk result (λ page. (s : DeskState) → D.stands desk.now s → page ≡ groups_page s) }
{
    let volumes = desk.volumes()?;
    let rows = shown_groups(alloc, desk.groups(), volumes.as_slice())?;
    let body = shown_groups_body(alloc, &rows)?;
    Ok(shown(body))
}

/// All volumes.
pub fn volumes<D: ShownDesk>(alloc: Global, desk: &D) -> Result<Page, AllocError>
    ensures { IfOk result (λ page. (s : DeskState) → D.stands desk.now s → page ≡ volumes_page s) }
{
    let rows = desk.volumes()?;
    let body = volumes_body(alloc, rows.as_slice())?;
    Ok(shown(body))
}

/// The volume of this serial, from a track on.
pub fn volume<D: ShownDesk>(
    alloc: Global,
    desk: &D,
    volser: &Volser,
    from: u32,
) -> Result<Page, AllocError>
    ensures { IfOk result (λ page. (s : DeskState) → D.stands desk.now s →
        IsVolumePage s (volume_named s volser.now) from page) }
{
    let rows = desk.volumes()?;
    match row_of(rows.as_slice(), volser) {
        Some(row) => tracks(alloc, desk, row, from),
        None => refused(
            alloc,
            PageStatus::Missing,
            b"no active volume has this serial",
        ),
    }
}

// The row of this serial.
fn row_of<'a>(rows: &'a [VolRow], volser: &Volser) -> Option<&'a VolRow>
    ensures { option_copied result ≡ find (λ row. bytes_eq row.volser volser.now) rows.entry.now }
{
    rows.iter().find(|row| row.volser == *volser)
}

// The tracks of a volume from one on.
fn tracks<D: ShownDesk>(
    alloc: Global,
    desk: &D,
    row: &VolRow,
    from: u32,
) -> Result<Page, AllocError>
    ensures { IfOk result (λ page. (s : DeskState) → D.stands desk.now s → ShowsTracks s row.now from page) }
{
    let extents = extents_on(alloc, desk, &row.volser, from)?;
    tracks_page(alloc, row, from, &extents)
}

fn tracks_page(
    alloc: Global,
    row: &VolRow,
    from: u32,
    extents: &[SetExtent],
) -> Result<Page, AllocError>
    ensures { IfOk result (λ page. page ≡ tracks_page row.now from extents.now) }
{
    let front = front_of(extents);
    let next = next_of(extents);
    let end = next.unwrap_or(u64::from(row.capacity));
    let gaps = gaps_beside(alloc, u64::from(from), end, front)?;
    let body = tracks_body(alloc, row, front, &gaps, next)?;
    Ok(shown(body))
}

// As many of the extents as a page shows.
fn front_of(extents: &[SetExtent]) -> &[SetExtent]
    ensures { result.now ≡ take most_shown extents.entry.now }
{
    if extents.len() < MOST_SHOWN {
        extents
    } else {
        &extents[..MOST_SHOWN]
    }
}

// Where the next page begins, if there is one.
fn next_of(extents: &[SetExtent]) -> Option<u64>
    ensures { result ≡ next_of extents.now }
{
    match extents.get(MOST_SHOWN) {
        Some(extent) => Some(u64::from(extent.start)),
        None => None,
    }
}
