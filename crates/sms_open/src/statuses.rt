//! Test 4: the statuses.
ghost use Rattle.std.specs.Prelude.{◌≡◌, ℕ, List, IfOk, Some, true, filter_map, not, map};
ghost use Rattle.std.specs.List.{AllByRecursion, list_all};
ghost use Rattle.sms_construct.specs.Configuration.{are_ascending, is_connected};
ghost use Rattle.sms_construct.specs.declared.target.Target.{Target};
ghost use Rattle.sms_construct.specs.declared.target.Target.TheVariants as targets;
ghost use Rattle.desk_law.specs.Statuses.{may_have, times_status};
ghost use Rattle.desk_law.specs.Volumes.{times_group, times_target, times_volume};
ghost use Rattle.sms_open.specs.Inner.Targets.{group_in, is_set, volume_in};
ghost use Rattle.sms_open.specs.Tests.{AreStatusesOf};
ghost use Rattle.sms_open.specs.Verdicts.{Tells};

use crate::apart::are_as_often;
use deck_meaning::Config;
use dsn_mask::{Name, Volser};
use sms_construct::{Status, StorGroup, Target, VolumeDef};
use sms_keeper::StatusRow;
use std::alloc::{AllocError, Global};

fn connects(status: Status) -> bool
    ensures { result ≡ is_connected status }
{
    match status {
        Status::NotCon => false,
        Status::Enable | Status::DisAll | Status::DisNew | Status::QuiAll | Status::QuiNew => true,
    }
}

fn may_stand(row: &StatusRow) -> bool
    ensures { result ≡ may_have row.now.target row.now.status }
{
    match row.target {
        Target::Volume(_) => connects(row.status),
        Target::Group(_) | Target::Set(_) => true,
    }
}

fn are_connected(rows: &[StatusRow]) -> bool
    ensures { Tells (AllByRecursion (λ row. may_have row.target row.status ≡ true) rows.now) result }
{
    for row in rows {
        if !may_stand(row) {
            return false;
        }
    }
    true
}

fn is_of_set(row: &StatusRow) -> bool
    ensures { result ≡ is_set row.now.target }
{
    matches!(row.target, Target::Set(_))
}

fn none_of_sets(rows: &[StatusRow]) -> bool
    ensures { result ≡ list_all (λ row. not (is_set row.target)) rows.now }
{
    rows.iter().all(|row| !is_of_set(row))
}

fn group_of(row: &StatusRow) -> Option<Name>
    ensures { result ≡ group_in row.now.target }
{
    match row.target {
        Target::Group(name) => Some(name),
        Target::Volume(_) | Target::Set(_) => None,
    }
}

fn volume_of(row: &StatusRow) -> Option<Volser>
    ensures { result ≡ volume_in row.now.target }
{
    match row.target {
        Target::Volume(volser) => Some(volser),
        Target::Group(_) | Target::Set(_) => None,
    }
}

fn names_of(alloc: Global, groups: &[StorGroup]) -> Result<Vec<Name>, AllocError>
    ensures { IfOk result (λ names. names.items ≡ map (λ group. group.name) groups.now) }
{
    groups.iter().map(|group| group.name).collect(alloc)
}

fn groups_found(alloc: Global, rows: &[StatusRow]) -> Result<Vec<Name>, AllocError>
    ensures { IfOk result (λ names. names.items ≡ filter_map (λ row. group_in row.target) rows.now) }
{
    rows.iter().filter_map(|row| group_of(row)).collect(alloc)
}

fn groups_stand(alloc: Global, groups: &[StorGroup], rows: &[StatusRow]) -> Result<bool, AllocError>
    requires { are_ascending (map (λ group. group.name) groups.now) ≡ true }
    ensures { IfOk result (Tells ((name : List ℕ) →
        times_status (targets.Group name) rows.now ≡ times_group name groups.now)) }
{
    let wanted = names_of(alloc, groups)?;
    let found = groups_found(alloc, rows)?;
    are_as_often(alloc, &wanted, &found)
}

fn volsers_of(alloc: Global, volumes: &[VolumeDef]) -> Result<Vec<Volser>, AllocError>
    ensures { IfOk result (λ volsers. volsers.items ≡ map (λ volume. volume.volser) volumes.now) }
{
    volumes.iter().map(|volume| volume.volser).collect(alloc)
}

fn volumes_found(alloc: Global, rows: &[StatusRow]) -> Result<Vec<Volser>, AllocError>
    ensures { IfOk result (λ volsers. volsers.items ≡ filter_map (λ row. volume_in row.target) rows.now) }
{
    rows.iter().filter_map(|row| volume_of(row)).collect(alloc)
}

fn volumes_stand(
    alloc: Global,
    volumes: &[VolumeDef],
    rows: &[StatusRow],
) -> Result<bool, AllocError>
    requires { are_ascending (map (λ volume. volume.volser) volumes.now) ≡ true }
    ensures { IfOk result (Tells ((volser : List ℕ) →
        times_status (targets.Volume volser) rows.now ≡ times_volume volser volumes.now)) }
{
    let wanted = volsers_of(alloc, volumes)?;
    let found = volumes_found(alloc, rows)?;
    are_as_often(alloc, &wanted, &found)
}

fn all_stand(alloc: Global, config: &Config, rows: &[StatusRow]) -> Result<bool, AllocError>
    ensures { IfOk result (Tells ((target : Target) →
        times_status target rows.now ≡ times_target (Some config.now) target)) }
{
    // A fact for the proof; nothing changes.
    config.deck();
    if !none_of_sets(rows) {
        return Ok(false);
    }
    if !groups_stand(alloc, config.groups(), rows)? {
        return Ok(false);
    }
    volumes_stand(alloc, config.volumes(), rows)
}

/// Whether there is one status for each storage group and volume of the configuration and none else, and no volume has
/// NOTCON; or want of memory. Without a configuration there must be none.
pub fn are_statuses_of(
    alloc: Global,
    active: &Option<Config>,
    rows: &[StatusRow],
) -> Result<bool, AllocError>
    ensures { IfOk result (Tells (AreStatusesOf active.now rows.now)) }
{
    if !are_connected(rows) {
        return Ok(false);
    }
    match active {
        Some(config) => all_stand(alloc, config, rows),
        None => Ok(rows.is_empty()),
    }
}
