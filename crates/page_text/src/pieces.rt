//! Names and counts that may be missing.
ghost use Rattle.std.specs.Prelude.{◌≡◌, ◌++◌, OnOk, decimal};
ghost use Rattle.json.specs.Print.{quoted};
ghost use Rattle.serde_json.specs.Written.{compact_text};
ghost use Rattle.page_text.specs.PageBodies.{count_if, name_if};

use desk_common::push_number;
use dsn_mask::Name;
use json_text::push_quoted;
use std::alloc::AllocError;

// Puts a name, or null for none, behind a text.
fn push_name_if(text: &mut Vec<u8>, name: &Option<Name>) -> Result<(), AllocError>
    ensures { OnOk result (text.new.items ≡ text.old.items ++ compact_text (name_if name.now)) }
{
    match name {
        Some(name) => push_quoted(text, name.bytes()),
        None => text.extend_from_slice(b"null"),
    }
}

/// Puts a count, or null for none, behind a text.
pub fn push_count_if(text: &mut Vec<u8>, count: Option<u64>) -> Result<(), AllocError>
    ensures { OnOk result (text.new.items ≡ text.old.items ++ compact_text (count_if count)) }
{
    match count {
        Some(count) => push_number(text, count),
        None => text.extend_from_slice(b"null"),
    }
}

/// Puts what stands before a text, and the text as a string, behind another text.
pub fn push_text(text: &mut Vec<u8>, before: &[u8], value: &[u8]) -> Result<(), AllocError>
    ensures { OnOk result (text.new.items ≡ text.old.items ++ (before.now ++ quoted value.now)) }
{
    text.extend_from_slice(before)?;
    push_quoted(text, value)?;
    Ok(())
}

/// Puts what stands before a count, and the count, behind a text.
pub fn push_count(text: &mut Vec<u8>, before: &[u8], count: u64) -> Result<(), AllocError>
    ensures { OnOk result (text.new.items ≡ text.old.items ++ (before.now ++ decimal count)) }
{
    text.extend_from_slice(before)?;
    push_number(text, count)?;
    Ok(())
}

/// Puts what stands before a name, and the name or null, behind a text.
pub fn push_name(text: &mut Vec<u8>, before: &[u8], name: &Option<Name>) -> Result<(), AllocError>
    ensures { OnOk result (text.new.items ≡ text.old.items ++ (before.now ++ compact_text (name_if name.now))) }
{
    text.extend_from_slice(before)?;
    push_name_if(text, name)?;
    Ok(())
}
