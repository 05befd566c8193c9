// The top table of a deck.
ghost use Rattle.std.specs.Prelude.{◌≡◌, codes};
ghost use Rattle.toml.specs.Data.{get_member};
ghost use Rattle.toml.specs.View.{table_view};
ghost use Rattle.deck_meaning.specs.Layout.{fault_told, inner, row_fault};
ghost use Rattle.deck_meaning.specs.Tables.{routine_walk, tables_fault, top_walk, version_of, version_row};

use crate::construct_tables::check_constructs;
use crate::rows::{check_keys, check_row, value_at};
use crate::values::integer_in;
use acs_tree::Kind;
use deck_meaning::{ValueForm, Version};
use sms_construct::{Fault, Path};
use toml::Table;

const TOP_KEYS: [&str; 8] = [
    "version",
    "system",
    "sysplex",
    "dataclass",
    "storclass",
    "mgmtclass",
    "storgroup",
    "routine",
];

fn check_version(top: &Table, path: &Path) -> Result<(), Fault>
    ensures { fault_told result ≡ row_fault path.now (table_view top.now) version_row
        (get_member (codes "version") (table_view top.now)) }
{
    if value_at(top, "version").is_none() {
        return Err(Fault::Missing(path.below(b"version")));
    }
    check_row(top, "version", ValueForm::Integer(1, 2), path)
}

// The version by which a deck is read.
fn version_of(top: &Table) -> Version
    ensures { result ≡ version_of (table_view top.now) }
{
    match value_at(top, "version") {
        Some(value) => {
            if integer_in(value, 2, 2).is_some() {
                Version::Two
            } else {
                Version::One
            }
        }
        None => Version::One,
    }
}

// Checks the table of the routines, but not yet their texts.
fn check_routine_table(keys: &Table, path: &Path) -> Result<(), Fault>
    ensures { fault_told result ≡ routine_walk path.now (table_view keys.now) }
{
    check_keys(
        keys,
        &["dataclass", "storclass", "mgmtclass", "storgroup"],
        path,
    )?;
    check_row(keys, "dataclass", ValueForm::Text, path)?;
    check_row(keys, "storclass", ValueForm::Text, path)?;
    check_row(keys, "mgmtclass", ValueForm::Text, path)?;
    check_row(keys, "storgroup", ValueForm::Text, path)
}

fn check_routines(top: &Table, path: &Path) -> Result<(), Fault>
    ensures { fault_told result ≡ row_fault path.now (table_view top.now) (inner (codes "routine") routine_walk)
        (get_member (codes "routine") (table_view top.now)) }
{
    match value_at(top, "routine") {
        Some(value) => {
            let path = path.below(b"routine");
            match value.as_table() {
                Some(keys) => check_routine_table(keys, &path),
                None => Err(Fault::BadValue(path)),
            }
        }
        None => Ok(()),
    }
}

// Checks the top table at a path.
fn check_top(top: &Table, version: Version, path: &Path) -> Result<(), Fault>
    ensures { fault_told result ≡ top_walk version path.now (table_view top.now) }
{
    check_keys(top, &TOP_KEYS, path)?;
    check_version(top, path)?;
    check_row(top, "system", ValueForm::ConstructName, path)?;
    check_row(top, "sysplex", ValueForm::ConstructName, path)?;
    check_constructs(top, version, Kind::DataClas, path)?;
    check_constructs(top, version, Kind::StorClas, path)?;
    check_constructs(top, version, Kind::MgmtClas, path)?;
    check_constructs(top, version, Kind::StorGrp, path)?;
    check_routines(top, path)
}

/// Checks the tables of a deck.
pub fn check_tables(top: &Table) -> Result<(), Fault>
    ensures { fault_told result ≡ tables_fault (table_view top.now) }
{
    check_top(top, version_of(top), &Path::top())
}
