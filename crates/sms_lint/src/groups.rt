// Storage groups without an enabled volume.
ghost use Rattle.std.specs.Prelude.{◌≡◌, ◌++◌, OnOk, flat_map};
ghost use Rattle.std.specs.List.{list_any};
ghost use Rattle.sms_lint.specs.DeckFound.{is_enabled, is_enabled_in, not_enabled};

use crate::deck_finding::DeckFinding;
use desk_common::are_same;
use dsn_mask::Name;
use sms_construct::{Status, StorGroup, VolumeDef};
use std::alloc::AllocError;

fn is_enabled(status: Status) -> bool
    ensures { result ≡ is_enabled status }
{
    match status {
        Status::Enable => true,
        Status::NotCon | Status::DisAll | Status::DisNew | Status::QuiAll | Status::QuiNew => false,
    }
}

fn is_enabled_in(name: &Name, volume: &VolumeDef) -> bool
    ensures { result ≡ is_enabled_in name.now volume.now }
{
    are_same(name.bytes(), volume.group.bytes()) && is_enabled(volume.status)
}

fn any_enabled(name: &Name, volumes: &[VolumeDef]) -> bool
    ensures { result ≡ list_any (is_enabled_in name.now) volumes.now }
{
    volumes.iter().any(|volume| is_enabled_in(name, volume))
}

/// The storage groups without an enabled volume.
pub fn push_not_enabled(
    found: &mut Vec<DeckFinding>,
    groups: &[StorGroup],
    volumes: &[VolumeDef],
) -> Result<(), AllocError>
    ensures { OnOk result (found.new.items ≡ found.old.items ++ flat_map (not_enabled volumes.now) groups.now) }
{
    for group in groups {
        push_if_not_enabled(found, group, volumes)?;
    }
    Ok(())
}

fn push_if_not_enabled(
    found: &mut Vec<DeckFinding>,
    group: &StorGroup,
    volumes: &[VolumeDef],
) -> Result<(), AllocError>
    ensures { OnOk result (found.new.items ≡ found.old.items ++ not_enabled volumes.now group.now) }
{
    if !any_enabled(&group.name, volumes) {
        found.push(DeckFinding::NotEnabled(group.name))?;
    }
    Ok(())
}
