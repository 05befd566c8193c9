// The top table of a deck.
ghost use Rattle.std.specs.Prelude.{◌≡◌, OnOk, codes, is_some};
ghost use Rattle.toml.specs.Data.{get_member};
ghost use Rattle.toml.specs.View.{table_view};
ghost use Rattle.deck_meaning.specs.Layout.{fault_told, row_fault};
ghost use Rattle.deck_meaning.specs.Tables.{routine_walk, version_of, version_row};
ghost use Rattle.deck_faults.specs.Tables.{head_walk, read_as, routine_faults, tables_faults, top_survey};
ghost use Rattle.deck_faults.specs.Inner.Telling.{put_all};

use crate::constructs::tell_constructs;
use crate::rows::{check_keys, check_row, value_at};
use crate::telling::{tell, tell_first};
use crate::values::integer_in;
use acs_tree::Kind;
use deck_meaning::{ValueForm, Version};
use sms_construct::{Fault, Path};
use std::alloc::AllocError;
use toml::Table;

/// The keys of the top table.
pub const TOP_KEYS: [&str; 8] = [
    "version",
    "system",
    "sysplex",
    "dataclass",
    "storclass",
    "mgmtclass",
    "storgroup",
    "routine",
];

fn check_version(top: &Table, path: &Path) -> Result<(), Fault>
    ensures { fault_told result ≡ row_fault path.now (table_view top.now) version_row
        (get_member (codes "version") (table_view top.now)) }
{
    if value_at(top, "version").is_none() {
        return Err(Fault::Missing(path.below(b"version")));
    }
    check_row(top, "version", ValueForm::Integer(1, 2), path)
}

// The version by which a deck is read.
fn version_of(top: &Table) -> Version
    ensures { result ≡ version_of (table_view top.now) }
{
    match value_at(top, "version") {
        Some(value) => {
            if integer_in(value, 2, 2).is_some() {
                Version::Two
            } else {
                Version::One
            }
        }
        None => Version::One,
    }
}

// Whether the version is missing or wrong; the path makes no difference.
fn is_unversioned_at(top: &Table, path: &Path) -> bool
    ensures { result ≡ is_some (row_fault path.now (table_view top.now) version_row
        (get_member (codes "version") (table_view top.now))) }
{
    match check_version(top, path) {
        Ok(()) => false,
        Err(_) => true,
    }
}

// The version by which the tables are read here.
fn read_as(top: &Table) -> Version
    ensures { result ≡ read_as (table_view top.now) }
{
    if is_unversioned_at(top, &Path::top()) {
        Version::Two
    } else {
        version_of(top)
    }
}

// Checks the keys of the top table that are no tables.
fn check_head(top: &Table, version: Version, path: &Path) -> Result<(), Fault>
    ensures { fault_told result ≡ head_walk version path.now (table_view top.now) }
{
    check_keys(top, &TOP_KEYS, path)?;
    check_version(top, path)?;
    check_row(top, "system", ValueForm::ConstructName, path)?;
    check_row(top, "sysplex", ValueForm::ConstructName, path)
}

// Checks the table of the routines, but not their texts.
fn check_routine_table(keys: &Table, path: &Path) -> Result<(), Fault>
    ensures { fault_told result ≡ routine_walk path.now (table_view keys.now) }
{
    check_keys(
        keys,
        &["dataclass", "storclass", "mgmtclass", "storgroup"],
        path,
    )?;
    check_row(keys, "dataclass", ValueForm::Text, path)?;
    check_row(keys, "storclass", ValueForm::Text, path)?;
    check_row(keys, "mgmtclass", ValueForm::Text, path)?;
    check_row(keys, "storgroup", ValueForm::Text, path)
}

// Tells the fault of the table of the routines.
fn tell_routines(told: &mut Vec<Fault>, top: &Table, path: &Path) -> Result<(), AllocError>
    ensures { OnOk result (told.new.items ≡ put_all told.old.items (routine_faults path.now (table_view top.now))) }
{
    match value_at(top, "routine") {
        Some(value) => {
            let path = path.below(b"routine");
            match value.as_table() {
                Some(keys) => tell_first(told, check_routine_table(keys, &path)),
                None => tell(told, Fault::BadValue(path)),
            }
        }
        None => Ok(()),
    }
}

// Tells the faults of the top table at a path.
#[tactic(auto, using(crate::proofs::TellingLemmas::put_append))]
fn tell_top(
    told: &mut Vec<Fault>,
    version: Version,
    top: &Table,
    path: &Path,
) -> Result<(), AllocError>
    ensures { OnOk result (told.new.items ≡ put_all told.old.items (top_survey version path.now (table_view top.now))) }
{
    tell_first(told, check_head(top, version, path))?;
    tell_constructs(told, version, Kind::DataClas, top, path)?;
    tell_constructs(told, version, Kind::StorClas, top, path)?;
    tell_constructs(told, version, Kind::MgmtClas, top, path)?;
    tell_constructs(told, version, Kind::StorGrp, top, path)?;
    tell_routines(told, top, path)
}

/// Tells the faults of the tables of a deck.
pub fn tell_tables(told: &mut Vec<Fault>, top: &Table) -> Result<(), AllocError>
    ensures { OnOk result (told.new.items ≡ put_all told.old.items (tables_faults (table_view top.now))) }
{
    tell_top(told, read_as(top), top, &Path::top())
}
