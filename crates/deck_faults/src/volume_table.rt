// The tables of volumes.
ghost use Rattle.std.specs.Prelude.{◌≡◌, OnOk, codes};
ghost use Rattle.toml.specs.Data.{get_member};
ghost use Rattle.toml.specs.View.{table_view, view};
ghost use Rattle.dsn_mask.specs.Name.{is_volser};
ghost use Rattle.sms_construct.specs.Path.{below};
ghost use Rattle.deck_meaning.specs.Layout.{fault_told, row_fault};
ghost use Rattle.deck_meaning.specs.Tables.{device_row, volume_walk};
ghost use Rattle.deck_faults.specs.Survey.{each_faults, first_alone, inner_faults, name_faults};
ghost use Rattle.deck_faults.specs.Tables.{volumes_survey};
ghost use Rattle.deck_faults.specs.Inner.Telling.{put_all};

use crate::rows::{check_count, check_keys, check_row, check_size, has_either, has_key, value_at};
use crate::telling::{tell, tell_first};
use deck_meaning::{MAX_GROUP_VOLUMES, MAX_TRACKS, ValueForm};
use dsn_mask::Volser;
use sms_construct::{Fault, Path};
use std::alloc::AllocError;
use toml::{Table, Value};

// A volume has at least one size.
fn check_device(keys: &Table, path: &Path) -> Result<(), Fault>
    ensures { fault_told result ≡ row_fault path.now (table_view keys.now) device_row
        (get_member (codes "device") (table_view keys.now)) }
{
    if !has_key(keys, "device") && !has_either(keys, "cylinders", "tracks") {
        return Err(Fault::Missing(path.below(b"device")));
    }
    check_row(keys, "device", ValueForm::Device, path)
}

// Checks the table of a volume.
fn check_volume(keys: &Table, path: &Path) -> Result<(), Fault>
    ensures { fault_told result ≡ volume_walk path.now (table_view keys.now) }
{
    check_keys(keys, &["device", "cylinders", "tracks", "status"], path)?;
    check_device(keys, path)?;
    check_size(
        keys,
        "cylinders",
        has_key(keys, "device"),
        ValueForm::Cylinders,
        path,
    )?;
    check_size(
        keys,
        "tracks",
        has_either(keys, "device", "cylinders"),
        ValueForm::Integer(1, MAX_TRACKS),
        path,
    )?;
    check_row(keys, "status", ValueForm::VolumeStatus, path)
}

fn is_volser(name: &str) -> bool
    ensures { result ≡ is_volser name.now }
{
    Volser::new(name.as_bytes()).is_some()
}

// Tells the fault of a volume and of its serial.
fn tell_named(
    told: &mut Vec<Fault>,
    name: &str,
    value: &Value,
    path: &Path,
) -> Result<(), AllocError>
    ensures { OnOk result (told.new.items ≡ put_all told.old.items
        (name_faults is_volser (first_alone volume_walk) path.now name.now (view value.now))) }
{
    let path = path.below(name.as_bytes());
    if !is_volser(name) {
        return tell(told, Fault::BadName(path));
    }
    match value.as_table() {
        Some(keys) => tell_first(told, check_volume(keys, &path)),
        None => tell(told, Fault::BadValue(path)),
    }
}

// Tells the fault of each volume.
#[tactic(auto, using(crate::proofs::TellingLemmas::put_append))]
fn tell_each(told: &mut Vec<Fault>, volumes: &Table, path: &Path) -> Result<(), AllocError>
    ensures { OnOk result (told.new.items ≡ put_all told.old.items
        (each_faults is_volser (first_alone volume_walk) path.now (table_view volumes.now))) }
{
    for (name, value) in volumes {
        tell_named(told, name.as_str(), value, path)?;
    }
    Ok(())
}

// Tells that there are too many volumes, and the fault of each.
#[tactic(auto, using(crate::proofs::TellingLemmas::put_append))]
fn tell_all(told: &mut Vec<Fault>, volumes: &Table, path: &Path) -> Result<(), AllocError>
    ensures { OnOk result (told.new.items ≡ put_all told.old.items
        (volumes_survey path.now (table_view volumes.now))) }
{
    tell_first(told, check_count(volumes, MAX_GROUP_VOLUMES, path))?;
    tell_each(told, volumes, path)
}

/// Tells the faults of the volumes of a storage group.
pub fn tell_volumes(told: &mut Vec<Fault>, keys: &Table, path: &Path) -> Result<(), AllocError>
    ensures { OnOk result (told.new.items ≡ put_all told.old.items
        (inner_faults volumes_survey (below path.now (codes "volume"))
        (get_member (codes "volume") (table_view keys.now)))) }
{
    match value_at(keys, "volume") {
        Some(value) => {
            let path = path.below(b"volume");
            match value.as_table() {
                Some(volumes) => tell_all(told, volumes, &path),
                None => tell(told, Fault::BadValue(path)),
            }
        }
        None => Ok(()),
    }
}
