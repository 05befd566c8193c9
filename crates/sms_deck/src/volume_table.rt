// The table of a volume.
ghost use Rattle.std.specs.Prelude.{◌≡◌, codes};
ghost use Rattle.toml.specs.Data.{get_member};
ghost use Rattle.toml.specs.View.{table_view, view};
ghost use Rattle.dsn_mask.specs.Name.{is_volser};
ghost use Rattle.deck_meaning.specs.Layout.{fault_told, inner, name_fault, names, row_fault};
ghost use Rattle.deck_meaning.specs.Limits.{most_group_volumes};
ghost use Rattle.deck_meaning.specs.Tables.{device_row, volume_walk};

use crate::rows::{check_keys, check_row, check_size, count_keys, has_either, has_key, value_at};
use deck_meaning::{MAX_GROUP_VOLUMES, MAX_TRACKS, ValueForm};
use dsn_mask::Volser;
use sms_construct::{Fault, Path};
use toml::{Table, Value};

// A volume has at least one size.
fn check_device(keys: &Table, path: &Path) -> Result<(), Fault>
    ensures { fault_told result ≡ row_fault path.now (table_view keys.now) device_row
        (get_member (codes "device") (table_view keys.now)) }
{
    if !has_key(keys, "device") && !has_either(keys, "cylinders", "tracks") {
        return Err(Fault::Missing(path.below(b"device")));
    }
    check_row(keys, "device", ValueForm::Device, path)
}

// Checks the table of a volume.
fn check_volume(keys: &Table, path: &Path) -> Result<(), Fault>
    ensures { fault_told result ≡ volume_walk path.now (table_view keys.now) }
{
    check_keys(keys, &["device", "cylinders", "tracks", "status"], path)?;
    check_device(keys, path)?;
    check_size(
        keys,
        "cylinders",
        has_key(keys, "device"),
        ValueForm::Cylinders,
        path,
    )?;
    check_size(
        keys,
        "tracks",
        has_either(keys, "device", "cylinders"),
        ValueForm::Integer(1, MAX_TRACKS),
        path,
    )?;
    check_row(keys, "status", ValueForm::VolumeStatus, path)
}

fn is_volser(name: &str) -> bool
    ensures { result ≡ is_volser name.now }
{
    Volser::new(name.as_bytes()).is_some()
}

// Checks a volume and its serial.
fn check_named(name: &str, value: &Value, path: &Path) -> Result<(), Fault>
    ensures { fault_told result ≡ name_fault is_volser volume_walk path.now name.now (view value.now) }
{
    let path = path.below(name.as_bytes());
    if !is_volser(name) {
        return Err(Fault::BadName(path));
    }
    match value.as_table() {
        Some(keys) => check_volume(keys, &path),
        None => Err(Fault::BadValue(path)),
    }
}

// Checks the volumes of a storage group.
fn check_each(volumes: &Table, path: &Path) -> Result<(), Fault>
    ensures { fault_told result ≡ names most_group_volumes is_volser volume_walk path.now (table_view volumes.now) }
{
    if count_keys(volumes) > MAX_GROUP_VOLUMES {
        return Err(Fault::TooMany(*path));
    }
    for (name, value) in volumes {
        check_named(name.as_str(), value, path)?;
    }
    Ok(())
}

/// Checks the key of a storage group's volumes.
pub fn check_volumes(keys: &Table, path: &Path) -> Result<(), Fault>
    ensures { fault_told result ≡ row_fault path.now (table_view keys.now)
        (inner (codes "volume") (names most_group_volumes is_volser volume_walk))
        (get_member (codes "volume") (table_view keys.now)) }
{
    match value_at(keys, "volume") {
        Some(value) => {
            let path = path.below(b"volume");
            match value.as_table() {
                Some(volumes) => check_each(volumes, &path),
                None => Err(Fault::BadValue(path)),
            }
        }
        None => Ok(()),
    }
}
