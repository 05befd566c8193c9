// The tables of classes and storage groups.
ghost use Rattle.std.specs.Prelude.{◌≡◌, codes};
ghost use Rattle.toml.specs.Data.{get_member};
ghost use Rattle.toml.specs.View.{table_view, view};
ghost use Rattle.dsn_mask.specs.Name.{is_name};
ghost use Rattle.sms_construct.specs.Keys.{key_of};
ghost use Rattle.deck_meaning.specs.Layout.{fault_told, fixed_keys, name_fault, names, row_fault};
ghost use Rattle.deck_meaning.specs.Tables.{construct_walk, constructs_row, data_class_rows, group_rows, high_of};
ghost use Rattle.deck_meaning.specs.Tables.{low_row, management_class_rows, most_constructs, storage_class_rows};

use crate::rows::{check_keys, check_row, count_keys, value_at};
use crate::values::integer_in;
use crate::volume_table::check_volumes;
use acs_tree::Kind;
use deck_meaning::{MAX_BREAKPOINT, MAX_CLASSES, MAX_GROUPS, ValueForm, Version};
use desk_common::{MAX_DAYS, MAX_VOLUMES};
use dsn_mask::Name;
use sms_construct::{Fault, Path, key_of};
use toml::{Table, Value};

const GROUP_KEYS: [&str; 7] = [
    "type",
    "status",
    "high",
    "low",
    "overflow",
    "breakpoint",
    "volume",
];

fn most_constructs(kind: Kind) -> usize
    ensures { result ≡ most_constructs kind }
{
    match kind {
        Kind::DataClas | Kind::StorClas | Kind::MgmtClas => MAX_CLASSES,
        Kind::StorGrp => MAX_GROUPS,
    }
}

fn check_data_class(keys: &Table, path: &Path) -> Result<(), Fault>
    ensures { fault_told result ≡ fixed_keys data_class_rows path.now (table_view keys.now) }
{
    check_keys(keys, &["space", "volcount", "eattr"], path)?;
    check_row(keys, "space", ValueForm::SpaceText, path)?;
    check_row(
        keys,
        "volcount",
        ValueForm::Integer(1, MAX_VOLUMES as u32),
        path,
    )?;
    check_row(keys, "eattr", ValueForm::OptOrNo, path)
}

fn check_storage_class(version: Version, keys: &Table, path: &Path) -> Result<(), Fault>
    ensures { fault_told result ≡ fixed_keys (storage_class_rows version) path.now (table_view keys.now) }
{
    match version {
        Version::One => check_keys(keys, &[], path),
        Version::Two => {
            check_keys(keys, &["multi_tier"], path)?;
            check_row(keys, "multi_tier", ValueForm::YesOrNo, path)
        }
    }
}

fn check_management_class(keys: &Table, path: &Path) -> Result<(), Fault>
    ensures { fault_told result ≡ fixed_keys management_class_rows path.now (table_view keys.now) }
{
    check_keys(keys, &["expire_after", "release"], path)?;
    check_row(keys, "expire_after", ValueForm::Integer(0, MAX_DAYS), path)?;
    check_row(keys, "release", ValueForm::YesOrNo, path)
}

/// The high threshold of a storage group.
pub fn high_of(keys: &Table) -> u32
    ensures { result ≡ high_of (table_view keys.now) }
{
    match value_at(keys, "high") {
        Some(value) => integer_in(value, 1, 100).unwrap_or(85),
        None => 85,
    }
}

fn check_low(keys: &Table, path: &Path) -> Result<(), Fault>
    ensures { fault_told result ≡ row_fault path.now (table_view keys.now) low_row
        (get_member (codes "low") (table_view keys.now)) }
{
    check_row(keys, "low", ValueForm::Integer(0, high_of(keys)), path)
}

fn check_group(keys: &Table, path: &Path) -> Result<(), Fault>
    ensures { fault_told result ≡ fixed_keys group_rows path.now (table_view keys.now) }
{
    check_keys(keys, &GROUP_KEYS, path)?;
    check_row(keys, "type", ValueForm::Pool, path)?;
    check_row(keys, "status", ValueForm::GroupStatus, path)?;
    check_row(keys, "high", ValueForm::Integer(1, 100), path)?;
    check_low(keys, path)?;
    check_row(keys, "overflow", ValueForm::Flag, path)?;
    check_row(
        keys,
        "breakpoint",
        ValueForm::Integer(0, MAX_BREAKPOINT),
        path,
    )?;
    check_volumes(keys, path)
}

// Checks the table of a construct.
fn check_construct(version: Version, kind: Kind, keys: &Table, path: &Path) -> Result<(), Fault>
    ensures { fault_told result ≡ construct_walk version kind path.now (table_view keys.now) }
{
    match kind {
        Kind::DataClas => check_data_class(keys, path),
        Kind::StorClas => check_storage_class(version, keys, path),
        Kind::MgmtClas => check_management_class(keys, path),
        Kind::StorGrp => check_group(keys, path),
    }
}

fn is_name(name: &str) -> bool
    ensures { result ≡ is_name name.now }
{
    Name::new(name.as_bytes()).is_some()
}

// Checks a construct and its name.
fn check_named(
    version: Version,
    kind: Kind,
    name: &str,
    value: &Value,
    path: &Path,
) -> Result<(), Fault>
    ensures { fault_told result ≡ name_fault is_name (construct_walk version kind) path.now name.now (view value.now) }
{
    let path = path.below(name.as_bytes());
    if !is_name(name) {
        return Err(Fault::BadName(path));
    }
    match value.as_table() {
        Some(keys) => check_construct(version, kind, keys, &path),
        None => Err(Fault::BadValue(path)),
    }
}

// Checks the constructs of a kind.
fn check_each(version: Version, kind: Kind, constructs: &Table, path: &Path) -> Result<(), Fault>
    ensures { fault_told result
        ≡ names (most_constructs kind) is_name (construct_walk version kind) path.now (table_view constructs.now) }
{
    if count_keys(constructs) > most_constructs(kind) {
        return Err(Fault::TooMany(*path));
    }
    for (name, value) in constructs {
        check_named(version, kind, name.as_str(), value, path)?;
    }
    Ok(())
}

/// Checks the key of the constructs of a kind.
pub fn check_constructs(top: &Table, version: Version, kind: Kind, path: &Path) -> Result<(), Fault>
    ensures { fault_told result
        ≡ row_fault path.now (table_view top.now) (constructs_row version kind)
        (get_member (key_of kind) (table_view top.now)) }
{
    let key = key_of(kind);
    match value_at(top, key) {
        Some(value) => {
            let path = path.below(key.as_bytes());
            match value.as_table() {
                Some(constructs) => check_each(version, kind, constructs, &path),
                None => Err(Fault::BadValue(path)),
            }
        }
        None => Ok(()),
    }
}
