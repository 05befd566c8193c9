// The table of a storage group.
ghost use Rattle.std.specs.Prelude.{◌≡◌, OnOk, codes};
ghost use Rattle.toml.specs.Data.{get_member};
ghost use Rattle.toml.specs.View.{table_view};
ghost use Rattle.deck_meaning.specs.Layout.{fault_told, row_fault};
ghost use Rattle.deck_meaning.specs.Tables.{high_of, low_row};
ghost use Rattle.deck_faults.specs.Tables.{group_survey, group_walk};
ghost use Rattle.deck_faults.specs.Inner.Telling.{put_all};

use crate::rows::{check_keys, check_row, value_at};
use crate::telling::tell_first;
use crate::values::integer_in;
use crate::volume_table::tell_volumes;
use deck_meaning::{MAX_BREAKPOINT, ValueForm};
use sms_construct::{Fault, Path};
use std::alloc::AllocError;
use toml::Table;

const GROUP_KEYS: [&str; 7] = [
    "type",
    "status",
    "high",
    "low",
    "overflow",
    "breakpoint",
    "volume",
];

// The high threshold of a storage group.
fn high_of(keys: &Table) -> u32
    ensures { result ≡ high_of (table_view keys.now) }
{
    match value_at(keys, "high") {
        Some(value) => integer_in(value, 1, 100).unwrap_or(85),
        None => 85,
    }
}

fn check_low(keys: &Table, path: &Path) -> Result<(), Fault>
    ensures { fault_told result ≡ row_fault path.now (table_view keys.now) low_row
        (get_member (codes "low") (table_view keys.now)) }
{
    check_row(keys, "low", ValueForm::Integer(0, high_of(keys)), path)
}

// Checks a storage group's own keys, all but its volumes.
fn check_group(keys: &Table, path: &Path) -> Result<(), Fault>
    ensures { fault_told result ≡ group_walk path.now (table_view keys.now) }
{
    check_keys(keys, &GROUP_KEYS, path)?;
    check_row(keys, "type", ValueForm::Pool, path)?;
    check_row(keys, "status", ValueForm::GroupStatus, path)?;
    check_row(keys, "high", ValueForm::Integer(1, 100), path)?;
    check_low(keys, path)?;
    check_row(keys, "overflow", ValueForm::Flag, path)?;
    check_row(
        keys,
        "breakpoint",
        ValueForm::Integer(0, MAX_BREAKPOINT),
        path,
    )
}

/// Tells the faults of a storage group: the first of its own keys, then those of its volumes.
#[tactic(auto, using(crate::proofs::TellingLemmas::put_append))]
pub fn tell_group(told: &mut Vec<Fault>, keys: &Table, path: &Path) -> Result<(), AllocError>
    ensures { OnOk result (told.new.items ≡ put_all told.old.items (group_survey path.now (table_view keys.now))) }
{
    tell_first(told, check_group(keys, path))?;
    tell_volumes(told, keys, path)
}
