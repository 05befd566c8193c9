// The keys of tables, and what is wrong with their values.
ghost use Rattle.std.specs.Prelude.{◌≡◌, ◌&&◌, ◌||◌, not, map, bytes_eq, option_map, Option, None, Some, if◌then◌else◌};
ghost use Rattle.std.specs.List.{list_any};
ghost use Rattle.std.specs.Option.{option_and_then};
ghost use Rattle.toml.specs.Data.{get_member, as_table, no_members};
ghost use Rattle.toml.specs.View.{table_view, view};
ghost use Rattle.sms_construct.specs.Path.{below};
ghost use Rattle.sms_construct.specs.declared.fault.Fault.TheVariants.{BadValue};
ghost use Rattle.deck_meaning.specs.Values.{has_form};
ghost use Rattle.deck_meaning.specs.Layout.{fault_told, has, key_count, plain, row_fault, table_at, unknown_fault};
ghost use Rattle.deck_faults.specs.Survey.{limit_fault};

use crate::forms::fits;
use deck_meaning::ValueForm;
use sms_construct::{Fault, Path};
use toml::{Table, Value};

/// The value at a key.
pub fn value_at<'a>(keys: &'a Table, key: &str) -> Option<&'a Value>
    ensures { option_map (λ v. view v.now) result ≡ get_member key.now (table_view keys.entry.now) }
{
    keys.get(key)
}

/// The table at a key.
pub fn find_table<'a>(keys: &'a Table, key: &str) -> Option<&'a Table>
    ensures { option_map (λ t. table_view t.now) result ≡ option_and_then as_table
        (get_member key.now (table_view keys.entry.now)) }
{
    match value_at(keys, key) {
        Some(value) => value.as_table(),
        None => None,
    }
}

/// The table at a key, or this empty one.
pub fn table_or<'a>(keys: &'a Table, key: &str, none: &'a Table) -> &'a Table
    requires { table_view none.now ≡ no_members }
    ensures { table_view result.now ≡ table_at key.now (table_view keys.entry.now) }
{
    match find_table(keys, key) {
        Some(table) => table,
        None => none,
    }
}

/// Whether the table has the key.
pub fn has_key(keys: &Table, key: &str) -> bool
    ensures { result ≡ has key.now (table_view keys.now) }
{
    value_at(keys, key).is_some()
}

/// Whether the table has one of two keys.
pub fn has_either(keys: &Table, one: &str, other: &str) -> bool
    ensures { result ≡ (has one.now (table_view keys.now) || has other.now (table_view keys.now)) }
{
    has_key(keys, one) || has_key(keys, other)
}

/// How many keys a table has.
pub fn count_keys(keys: &Table) -> usize
    ensures { result ≡ key_count (table_view keys.now) }
{
    keys.len()
}

// Whether the text is one of these.
fn is_any(text: &str, words: &[&str]) -> bool
    ensures { result ≡ list_any (λ w. bytes_eq text.now w.now) words.now }
{
    words.iter().any(|word| text == *word)
}

fn is_among(text: &str, words: &[&str]) -> bool
    ensures { result ≡ list_any (bytes_eq text.now) (map (λ w. w.now) words.now) }
{
    is_any(text, words)
}

/// Checks that the table has no other keys than these.
pub fn check_keys(keys: &Table, known: &[&str], path: &Path) -> Result<(), Fault>
    ensures { fault_told result ≡ unknown_fault path.now (map (λ w. w.now) known.now) (table_view keys.now) }
{
    for (key, _) in keys {
        let key = key.as_str();
        if !is_among(key, known) {
            return Err(Fault::UnknownKey(path.below(key.as_bytes())));
        }
    }
    Ok(())
}

// Checks whether the value at a key is right.
fn judge(is_right: bool, key: &str, path: &Path) -> Result<(), Fault>
    ensures { fault_told result ≡ (if is_right then None else Some (BadValue (below path.now key.now))) }
{
    if is_right {
        Ok(())
    } else {
        Err(Fault::BadValue(path.below(key.as_bytes())))
    }
}

/// Checks a key whose value has a form.
pub fn check_row(keys: &Table, key: &str, form: ValueForm, path: &Path) -> Result<(), Fault>
    ensures { fault_told result ≡ row_fault path.now (table_view keys.now) (plain key.now form)
        (get_member key.now (table_view keys.now)) }
{
    match value_at(keys, key) {
        Some(value) => judge(fits(form, value), key, path),
        None => Ok(()),
    }
}

/// Checks a key whose value has a form, and that is wrong where its table has another size already.
pub fn check_size(
    keys: &Table,
    key: &str,
    is_second: bool,
    form: ValueForm,
    path: &Path,
) -> Result<(), Fault>
    ensures { fault_told result ≡ row_fault path.now (table_view keys.now)
        (record (plain key.now form) { is_right = λ keys value. not is_second && has_form form value })
        (get_member key.now (table_view keys.now)) }
{
    match value_at(keys, key) {
        Some(value) => judge(!is_second && fits(form, value), key, path),
        None => Ok(()),
    }
}

/// Checks that the table has at most so many keys.
pub fn check_count(keys: &Table, limit: usize, path: &Path) -> Result<(), Fault>
    ensures { fault_told result ≡ limit_fault limit path.now (table_view keys.now) }
{
    if count_keys(keys) > limit {
        return Err(Fault::TooMany(*path));
    }
    Ok(())
}
