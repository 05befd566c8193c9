// Whether the names that a routine may set are known.
ghost use Rattle.std.specs.Prelude.{◌≡◌, is_some, map};
ghost use Rattle.toml.specs.Data.{as_table};
ghost use Rattle.toml.specs.View.{table_view, view};
ghost use Rattle.dsn_mask.specs.Name.{is_name};
ghost use Rattle.deck_meaning.specs.Layout.{unknown_fault};
ghost use Rattle.deck_meaning.specs.Tables.{top_rows, version_of};
ghost use Rattle.deck_faults.specs.Names.{are_named, are_names, has_unknown, names_known};

use crate::rows::{check_keys, value_at};
use crate::top_table::TOP_KEYS;
use acs_tree::Kind;
use dsn_mask::Name;
use sms_construct::{Path, key_of};
use toml::{Table, Value};

/// Whether the text is a construct name.
pub fn is_name(name: &str) -> bool
    ensures { result ≡ is_name name.now }
{
    Name::new(name.as_bytes()).is_some()
}

fn are_names(keys: &Table) -> bool
    ensures { result ≡ are_names (table_view keys.now) }
{
    for (name, _) in keys {
        if !is_name(name.as_str()) {
            return false;
        }
    }
    true
}

// Whether the value is a table, each key of which is a construct name.
fn are_named(value: &Value) -> bool
    ensures { result ≡ are_named (as_table (view value.now)) }
{
    match value.as_table() {
        Some(keys) => are_names(keys),
        None => false,
    }
}

// Whether the top table has an unknown key; the path makes no difference.
fn has_unknown_at(top: &Table, path: &Path) -> bool
    ensures { result ≡ is_some (unknown_fault path.now
        (map (λ row. row.key) (top_rows (version_of (table_view top.now)))) (table_view top.now)) }
{
    match check_keys(top, &TOP_KEYS, path) {
        Ok(()) => false,
        Err(_) => true,
    }
}

fn has_unknown(top: &Table) -> bool
    ensures { result ≡ has_unknown (table_view top.now) }
{
    has_unknown_at(top, &Path::top())
}

/// Whether the names of the constructs of a kind are known.
pub fn names_known(kind: Kind, top: &Table) -> bool
    ensures { result ≡ names_known kind (table_view top.now) }
{
    if has_unknown(top) {
        return false;
    }
    match value_at(top, key_of(kind)) {
        Some(value) => are_named(value),
        None => true,
    }
}
