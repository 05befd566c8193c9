// The tables of classes.
ghost use Rattle.std.specs.Prelude.{◌≡◌};
ghost use Rattle.toml.specs.View.{table_view};
ghost use Rattle.deck_meaning.specs.Layout.{fault_told, fixed_keys};
ghost use Rattle.deck_meaning.specs.Tables.{data_class_rows, management_class_rows, storage_class_rows};

use crate::rows::{check_keys, check_row};
use deck_meaning::{ValueForm, Version};
use desk_common::{MAX_DAYS, MAX_VOLUMES};
use sms_construct::{Fault, Path};
use toml::Table;

/// Checks the table of a data class.
pub fn check_data_class(keys: &Table, path: &Path) -> Result<(), Fault>
    ensures { fault_told result ≡ fixed_keys data_class_rows path.now (table_view keys.now) }
{
    check_keys(keys, &["space", "volcount", "eattr"], path)?;
    check_row(keys, "space", ValueForm::SpaceText, path)?;
    check_row(
        keys,
        "volcount",
        ValueForm::Integer(1, MAX_VOLUMES as u32),
        path,
    )?;
    check_row(keys, "eattr", ValueForm::OptOrNo, path)
}

/// Checks the table of a storage class.
pub fn check_storage_class(version: Version, keys: &Table, path: &Path) -> Result<(), Fault>
    ensures { fault_told result ≡ fixed_keys (storage_class_rows version) path.now (table_view keys.now) }
{
    match version {
        Version::One => check_keys(keys, &[], path),
        Version::Two => {
            check_keys(keys, &["multi_tier"], path)?;
            check_row(keys, "multi_tier", ValueForm::YesOrNo, path)
        }
    }
}

/// Checks the table of a management class.
pub fn check_management_class(keys: &Table, path: &Path) -> Result<(), Fault>
    ensures { fault_told result ≡ fixed_keys management_class_rows path.now (table_view keys.now) }
{
    check_keys(keys, &["expire_after", "release"], path)?;
    check_row(keys, "expire_after", ValueForm::Integer(0, MAX_DAYS), path)?;
    check_row(keys, "release", ValueForm::YesOrNo, path)
}
