//! Storage groups with the sums of their volumes.
ghost use Rattle.std.specs.Prelude.{◌≡◌, ◌≤◌, ◌<◌, ◌+◌, ◌-◌, ◌*◌, ◌^◌, IfOk, length, map};
ghost use Rattle.desk_pages.specs.Groups.{row_named, shown_group, with_volume};

use dsn_mask::Name;
use page_text::{GroupRow, ShownGroup};
use sms_construct::{StorGroup, VolRow};
use std::alloc::{AllocError, Global};

/// The storage groups, each as its deck defines it and with the sums of its volumes.
pub fn shown_groups(
    alloc: Global,
    groups: &[StorGroup],
    rows: &[VolRow],
) -> Result<Vec<ShownGroup>, AllocError>
    requires { length rows.now < 2 ^ 32 }
    ensures { IfOk result (λ found. found.items ≡ map (shown_group rows.now) groups.entry.now) }
{
    let mut found = Vec::new(alloc);
    let mut rest = groups;
    while let [group, others @ ..] = rest {
        found.push(shown_group(group, rows))?;
        rest = others;
    }
    Ok(found)
}

fn shown_group(group: &StorGroup, rows: &[VolRow]) -> ShownGroup
    requires { length rows.now < 2 ^ 32 }
    ensures { result ≡ shown_group rows.now group.now }
{
    ShownGroup {
        row: row_named(group.name, rows),
        high: group.high,
        low: group.low,
        overflow: group.overflow,
        breakpoint: group.breakpoint,
    }
}

// The storage group of this name with the sums of its volumes.
fn row_named(name: Name, rows: &[VolRow]) -> GroupRow
    requires { length rows.now < 2 ^ 32 }
    ensures { result ≡ row_named rows.entry.now name }
{
    let mut row = GroupRow {
        group: name,
        volumes: 0,
        capacity: 0,
        free: 0,
    };
    let mut rest = rows;
    while let [one, others @ ..] = rest {
        if one.group == name {
            row = with_volume(row, one);
        }
        rest = others;
    }
    row
}

// The sums with those of one volume more.
fn with_volume(row: GroupRow, one: &VolRow) -> GroupRow
    requires volumes { row.volumes < 2 ^ 32 - 1 }
    requires capacity { row.capacity ≤ 2 ^ 32 * row.volumes }
    requires free { row.free ≤ 2 ^ 32 * row.volumes }
    ensures sums { result ≡ with_volume row one.now }
    ensures capacity { result.capacity ≤ row.capacity + 2 ^ 32 }
    ensures free { result.free ≤ row.free + 2 ^ 32 }
{
    GroupRow {
        group: row.group,
        volumes: row.volumes + 1,
        capacity: row.capacity + wide(one.capacity),
        free: row.free + wide(one.free),
    }
}

fn wide(tracks: u32) -> u64
    ensures value { result ≡ tracks }
    ensures range { result < 2 ^ 32 }
{
    u64::from(tracks)
}
