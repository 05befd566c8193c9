//! Storage groups with the sums of their volumes.
ghost use Rattle.std.specs.Prelude.{◌≡◌, ◌≤◌, ◌<◌, ◌+◌, ◌-◌, ◌*◌, ◌^◌, IfOk, filter, length, map};
ghost use Rattle.store_report.specs.GroupSums.{group_row, row_named, with_volume};
ghost use Rattle.store_report.specs.Selecting.{fits_group};

use crate::picking::fits_group;
use crate::selection::Selection;
use dsn_mask::Name;
use page_text::GroupRow;
use sms_construct::{StorGroup, VolRow};
use std::alloc::{AllocError, Global};

/// The storage groups that fit, each with the sums of its volumes.
pub fn pick_groups(
    alloc: Global,
    groups: &[StorGroup],
    rows: &[VolRow],
    selection: &Selection,
) -> Result<Vec<GroupRow>, AllocError>
    requires { length rows.now < 2 ^ 32 }
    ensures { IfOk result (λ picked.
        picked.items ≡ filter (fits_group selection.now) (map (group_row rows.now) groups.entry.now)) }
{
    let mut picked = Vec::new(alloc);
    let mut rest = groups;
    while let [group, others @ ..] = rest {
        let row = row_named(group.name, rows);
        if fits_group(selection, &row) {
            picked.push(row)?;
        }
        rest = others;
    }
    Ok(picked)
}

// The storage group of this name with the sums of its volumes.
fn row_named(name: Name, rows: &[VolRow]) -> GroupRow
    requires { length rows.now < 2 ^ 32 }
    ensures { result ≡ row_named rows.entry.now name }
{
    let mut row = GroupRow {
        group: name,
        volumes: 0,
        capacity: 0,
        free: 0,
    };
    let mut rest = rows;
    while let [one, others @ ..] = rest {
        if one.group == name {
            row = with_volume(row, one);
        }
        rest = others;
    }
    row
}

// The sums with those of one volume more.
fn with_volume(row: GroupRow, one: &VolRow) -> GroupRow
    requires volumes { row.volumes < 2 ^ 32 - 1 }
    requires capacity { row.capacity ≤ 2 ^ 32 * row.volumes }
    requires free { row.free ≤ 2 ^ 32 * row.volumes }
    ensures sums { result ≡ with_volume row one.now }
    ensures capacity { result.capacity ≤ row.capacity + 2 ^ 32 }
    ensures free { result.free ≤ row.free + 2 ^ 32 }
{
    GroupRow {
        group: row.group,
        volumes: row.volumes + 1,
        capacity: row.capacity + wide(one.capacity),
        free: row.free + wide(one.free),
    }
}

fn wide(tracks: u32) -> u64
    ensures value { result ≡ tracks }
    ensures range { result < 2 ^ 32 }
{
    u64::from(tracks)
}
