// The constructs that a deck's tables define.
ghost use Rattle.std.specs.Prelude.{◌≡◌, ◌≤◌, IfOk, IfSome, codes};
ghost use Rattle.desk_common.specs.Limits.{most_volume_count};
ghost use Rattle.toml.specs.Data.{as_bool};
ghost use Rattle.toml.specs.View.{table_view};
ghost use Rattle.dsn_mask.specs.Name.{name_of};
ghost use Rattle.sms_construct.specs.Eattr.{eattrs};
ghost use Rattle.deck_meaning.specs.Limits.{most_cylinders};
ghost use Rattle.deck_meaning.specs.Values.{cylinders_in, devices, group_statuses, integer_in, name_in, space_in};
ghost use Rattle.deck_meaning.specs.Values.{volume_statuses, word_in, yes_or_no};
ghost use Rattle.deck_meaning.specs.Tables.{high_of};
ghost use Rattle.deck_meaning.specs.Constructs.{data_class_of, group_of, management_class_of, named, read_at};
ghost use Rattle.deck_meaning.specs.Constructs.{storage_class_of, tracks_of, volume_of};

use crate::construct_tables::high_of;
use crate::rows::value_at;
use crate::values::{
    cylinders_in, device_in, eattr_in, group_status_in, integer_in, name_in, space_in,
    volume_status_in, yes_or_no_in,
};
use deck_meaning::{MAX_BREAKPOINT, MAX_TRACKS};
use desk_common::{Items, MAX_DAYS, MAX_VOLUMES, TRACKS_IN_CYLINDER};
use dsn_mask::{Name, Volser};
use sms_construct::{
    DataClass, Eattr, MgmtClass, Space, Status, StorClass, StorGroup, VolumeCount, VolumeDef,
};
use std::alloc::{AllocError, Global};
use toml::Table;

/// The name at a key, if there is one.
pub fn name_at(keys: &Table, key: &str) -> Option<Name>
    ensures { result ≡ read_at name_in key.now (table_view keys.now) }
{
    match value_at(keys, key) {
        Some(value) => name_in(value),
        None => None,
    }
}

// The integer of the range at a key, if there is one.
fn integer_at(keys: &Table, key: &str, least: u32, most: u32) -> Option<u32>
    ensures value { result ≡ read_at (integer_in least most) key.now (table_view keys.now) }
    ensures range { IfSome result (λ number. (least ≤ number) × (number ≤ most)) }
{
    match value_at(keys, key) {
        Some(value) => integer_in(value, least, most),
        None => None,
    }
}

fn volume_count(keys: &Table) -> Option<VolumeCount>
    ensures { result ≡ read_at (integer_in 1 most_volume_count) (codes "volcount") (table_view keys.now) }
{
    match integer_at(keys, "volcount", 1, MAX_VOLUMES as u32) {
        Some(count) => VolumeCount::new(count as u8),
        None => None,
    }
}

fn space(keys: &Table) -> Option<Space>
    ensures { result ≡ read_at space_in (codes "space") (table_view keys.now) }
{
    match value_at(keys, "space") {
        Some(value) => space_in(value),
        None => None,
    }
}

fn eattr(keys: &Table) -> Option<Eattr>
    ensures { result ≡ read_at (word_in eattrs) (codes "eattr") (table_view keys.now) }
{
    match value_at(keys, "eattr") {
        Some(value) => eattr_in(value),
        None => None,
    }
}

// The yes or no at a key, if there is one.
fn yes_or_no_at(keys: &Table, key: &str) -> Option<bool>
    ensures { result ≡ read_at (word_in yes_or_no) key.now (table_view keys.now) }
{
    match value_at(keys, key) {
        Some(value) => yes_or_no_in(value),
        None => None,
    }
}

fn storage_class(name: Name, keys: &Table) -> StorClass
    ensures { result ≡ storage_class_of name (table_view keys.now) }
{
    StorClass {
        name,
        multi_tier: yes_or_no_at(keys, "multi_tier").unwrap_or(false),
    }
}

fn management_class(name: Name, keys: &Table) -> MgmtClass
    ensures { result ≡ management_class_of name (table_view keys.now) }
{
    MgmtClass {
        name,
        expire_after: integer_at(keys, "expire_after", 0, MAX_DAYS),
        release: yes_or_no_at(keys, "release").unwrap_or(false),
    }
}

fn group_status(keys: &Table) -> Option<Status>
    ensures { result ≡ read_at (word_in group_statuses) (codes "status") (table_view keys.now) }
{
    match value_at(keys, "status") {
        Some(value) => group_status_in(value),
        None => None,
    }
}

fn overflows(keys: &Table) -> Option<bool>
    ensures { result ≡ read_at as_bool (codes "overflow") (table_view keys.now) }
{
    match value_at(keys, "overflow") {
        Some(value) => value.as_bool(),
        None => None,
    }
}

fn group(name: Name, keys: &Table) -> StorGroup
    ensures { result ≡ group_of name (table_view keys.now) }
{
    let high = high_of(keys);
    let low = integer_at(keys, "low", 0, high).unwrap_or(1);
    StorGroup {
        name,
        status: group_status(keys).unwrap_or(Status::Enable),
        high: high as u8,
        low: low as u8,
        overflow: overflows(keys).unwrap_or(false),
        breakpoint: integer_at(keys, "breakpoint", 0, MAX_BREAKPOINT).unwrap_or(10),
    }
}

fn device(keys: &Table) -> Option<u32>
    ensures { result ≡ read_at (word_in devices) (codes "device") (table_view keys.now) }
{
    match value_at(keys, "device") {
        Some(value) => device_in(value),
        None => None,
    }
}

fn cylinders(keys: &Table) -> Option<u32>
    ensures value { result ≡ read_at cylinders_in (codes "cylinders") (table_view keys.now) }
    ensures range { IfSome result (λ number. number ≤ most_cylinders) }
{
    match value_at(keys, "cylinders") {
        Some(value) => cylinders_in(value),
        None => None,
    }
}

fn tracks_of(keys: &Table) -> u32
    ensures { result ≡ tracks_of (table_view keys.now) }
{
    if let Some(tracks) = device(keys) {
        return tracks;
    }
    match cylinders(keys) {
        Some(cylinders) => cylinders * TRACKS_IN_CYLINDER,
        None => integer_at(keys, "tracks", 1, MAX_TRACKS).unwrap_or(1),
    }
}

fn volume_status(keys: &Table) -> Option<Status>
    ensures { result ≡ read_at (word_in volume_statuses) (codes "status") (table_view keys.now) }
{
    match value_at(keys, "status") {
        Some(value) => volume_status_in(value),
        None => None,
    }
}

/// The volume that its table defines.
pub fn volume(group: Name, volser: Volser, keys: &Table) -> VolumeDef
    ensures { result ≡ volume_of group volser (table_view keys.now) }
{
    VolumeDef {
        volser,
        group,
        status: volume_status(keys).unwrap_or(Status::Enable),
        tracks: tracks_of(keys),
    }
}

/// The data classes of a table.
pub fn data_classes(alloc: Global, table: &Table) -> Result<Items<DataClass>, AllocError>
    ensures { IfOk result (λ classes. classes ≡ named name_of data_class_of (table_view table.now)) }
{
    let mut classes = Items::new(alloc);
    for (name, value) in table {
        if let Some(name) = Name::new(name.as_bytes()) {
            if let Some(keys) = value.as_table() {
                let space: Option<Space> = space(keys);
                let volumes: Option<VolumeCount> = volume_count(keys);
                classes.push(DataClass {
                    name,
                    space,
                    volumes,
                    eattr: eattr(keys).unwrap_or(Eattr::No),
                })?;
            }
        }
    }
    Ok(classes)
}

/// The storage classes of a table.
pub fn storage_classes(alloc: Global, table: &Table) -> Result<Items<StorClass>, AllocError>
    ensures { IfOk result (λ classes. classes ≡ named name_of storage_class_of (table_view table.now)) }
{
    let mut classes = Items::new(alloc);
    for (name, value) in table {
        if let Some(name) = Name::new(name.as_bytes()) {
            if let Some(keys) = value.as_table() {
                classes.push(storage_class(name, keys))?;
            }
        }
    }
    Ok(classes)
}

/// The management classes of a table.
pub fn management_classes(alloc: Global, table: &Table) -> Result<Items<MgmtClass>, AllocError>
    ensures { IfOk result (λ classes. classes ≡ named name_of management_class_of (table_view table.now)) }
{
    let mut classes = Items::new(alloc);
    for (name, value) in table {
        if let Some(name) = Name::new(name.as_bytes()) {
            if let Some(keys) = value.as_table() {
                classes.push(management_class(name, keys))?;
            }
        }
    }
    Ok(classes)
}

/// The storage groups of a table.
pub fn groups(alloc: Global, table: &Table) -> Result<Items<StorGroup>, AllocError>
    ensures { IfOk result (λ groups. groups ≡ named name_of group_of (table_view table.now)) }
{
    let mut groups = Items::new(alloc);
    for (name, value) in table {
        if let Some(name) = Name::new(name.as_bytes()) {
            if let Some(keys) = value.as_table() {
                groups.push(group(name, keys))?;
            }
        }
    }
    Ok(groups)
}
