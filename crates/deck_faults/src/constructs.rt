// The constructs of a kind.
ghost use Rattle.std.specs.Prelude.{◌≡◌, OnOk};
ghost use Rattle.toml.specs.View.{table_view, view};
ghost use Rattle.dsn_mask.specs.Name.{is_name};
ghost use Rattle.deck_meaning.specs.Tables.{most_constructs};
ghost use Rattle.deck_faults.specs.Survey.{each_faults, name_faults, names_faults};
ghost use Rattle.deck_faults.specs.Tables.{construct_survey, constructs_faults};
ghost use Rattle.deck_faults.specs.Inner.Telling.{put_all};

use crate::class_tables::{check_data_class, check_management_class, check_storage_class};
use crate::group_table::tell_group;
use crate::names::is_name;
use crate::rows::{check_count, value_at};
use crate::telling::{tell, tell_first};
use acs_tree::Kind;
use deck_meaning::{MAX_CLASSES, MAX_GROUPS, Version};
use sms_construct::{Fault, Path, key_of};
use std::alloc::AllocError;
use toml::{Table, Value};

fn most_constructs(kind: Kind) -> usize
    ensures { result ≡ most_constructs kind }
{
    match kind {
        Kind::DataClas | Kind::StorClas | Kind::MgmtClas => MAX_CLASSES,
        Kind::StorGrp => MAX_GROUPS,
    }
}

// Tells the faults of a construct's table.
fn tell_construct(
    told: &mut Vec<Fault>,
    version: Version,
    kind: Kind,
    keys: &Table,
    path: &Path,
) -> Result<(), AllocError>
    ensures { OnOk result (told.new.items ≡ put_all told.old.items
        (construct_survey version kind path.now (table_view keys.now))) }
{
    match kind {
        Kind::DataClas => tell_first(told, check_data_class(keys, path)),
        Kind::StorClas => tell_first(told, check_storage_class(version, keys, path)),
        Kind::MgmtClas => tell_first(told, check_management_class(keys, path)),
        Kind::StorGrp => tell_group(told, keys, path),
    }
}

// Tells the faults of a construct and of its name.
fn tell_named(
    told: &mut Vec<Fault>,
    version: Version,
    kind: Kind,
    name: &str,
    value: &Value,
    path: &Path,
) -> Result<(), AllocError>
    ensures { OnOk result (told.new.items ≡ put_all told.old.items
        (name_faults is_name (construct_survey version kind) path.now name.now (view value.now))) }
{
    let path = path.below(name.as_bytes());
    if !is_name(name) {
        return tell(told, Fault::BadName(path));
    }
    match value.as_table() {
        Some(keys) => tell_construct(told, version, kind, keys, &path),
        None => tell(told, Fault::BadValue(path)),
    }
}

// Tells the faults of each construct.
#[tactic(auto, using(crate::proofs::TellingLemmas::put_append))]
fn tell_each(
    told: &mut Vec<Fault>,
    version: Version,
    kind: Kind,
    constructs: &Table,
    path: &Path,
) -> Result<(), AllocError>
    ensures { OnOk result (told.new.items ≡ put_all told.old.items
        (each_faults is_name (construct_survey version kind) path.now (table_view constructs.now))) }
{
    for (name, value) in constructs {
        tell_named(told, version, kind, name.as_str(), value, path)?;
    }
    Ok(())
}

// Tells that there are too many constructs, and the faults of each.
#[tactic(auto, using(crate::proofs::TellingLemmas::put_append))]
fn tell_all(
    told: &mut Vec<Fault>,
    version: Version,
    kind: Kind,
    constructs: &Table,
    path: &Path,
) -> Result<(), AllocError>
    ensures { OnOk result (told.new.items ≡ put_all told.old.items
        (names_faults (most_constructs kind) is_name (construct_survey version kind) path.now
        (table_view constructs.now))) }
{
    tell_first(told, check_count(constructs, most_constructs(kind), path))?;
    tell_each(told, version, kind, constructs, path)
}

/// Tells the faults of the constructs of a kind.
pub fn tell_constructs(
    told: &mut Vec<Fault>,
    version: Version,
    kind: Kind,
    top: &Table,
    path: &Path,
) -> Result<(), AllocError>
    ensures { OnOk result (told.new.items ≡ put_all told.old.items
        (constructs_faults version kind path.now (table_view top.now))) }
{
    let key = key_of(kind);
    match value_at(top, key) {
        Some(value) => {
            let path = path.below(key.as_bytes());
            match value.as_table() {
                Some(constructs) => tell_all(told, version, kind, constructs, &path),
                None => tell(told, Fault::BadValue(path)),
            }
        }
        None => Ok(()),
    }
}
