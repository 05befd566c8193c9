// The names of constructs in a deck's table.
ghost use Rattle.std.specs.Prelude.{◌≡◌, ◌++◌, IfOk, OnOk, option_map};
ghost use Rattle.std.specs.Option.{option_and_then};
ghost use Rattle.toml.specs.Data.{as_table, get_member};
ghost use Rattle.toml.specs.View.{table_view, view};
ghost use Rattle.dsn_mask.specs.Name.{name_of};
ghost use Rattle.sms_lint.specs.DeckFound.{name_if, names_among, names_in};

use acs_tree::Kind;
use dsn_mask::Name;
use sms_construct::key_of;
use std::alloc::{AllocError, Global};
use toml::{Table, Value};

/// The names of the constructs of a kind.
pub fn construct_names(alloc: Global, top: &Table, kind: Kind) -> Result<Vec<Name>, AllocError>
    ensures { IfOk result (λ names. names.items ≡ names_in (table_view top.now) kind) }
{
    match find_table(top, key_of(kind)) {
        None => Ok(Vec::new(alloc)),
        Some(table) => table_names(alloc, table),
    }
}

fn table_names(alloc: Global, table: &Table) -> Result<Vec<Name>, AllocError>
    ensures { IfOk result (λ names. names.items ≡ names_among (table_view table.now)) }
{
    let mut names = Vec::new(alloc);
    for (key, _) in table {
        push_name(&mut names, key.as_str())?;
    }
    Ok(names)
}

fn push_name(names: &mut Vec<Name>, key: &str) -> Result<(), AllocError>
    ensures { OnOk result (names.new.items ≡ names.old.items ++ name_if (name_of key.now)) }
{
    if let Some(name) = Name::new(key.as_bytes()) {
        names.push(name)?;
    }
    Ok(())
}

fn find_table<'a>(keys: &'a Table, key: &str) -> Option<&'a Table>
    ensures { option_map (λ t. table_view t.now) result ≡ option_and_then as_table
        (get_member key.now (table_view keys.entry.now)) }
{
    match value_at(keys, key) {
        Some(value) => value.as_table(),
        None => None,
    }
}

fn value_at<'a>(keys: &'a Table, key: &str) -> Option<&'a Value>
    ensures { option_map (λ v. view v.now) result ≡ get_member key.now (table_view keys.entry.now) }
{
    keys.get(key)
}
