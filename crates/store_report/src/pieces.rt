// Parts of JSON.
ghost use Rattle.std.specs.Prelude.{◌≡◌, ◌++◌, OnOk, decimal};
ghost use Rattle.json.specs.Print.{quoted};
ghost use Rattle.page_text.specs.PageBodies.{count_if};
ghost use Rattle.serde_json.specs.Data.{boolean};
ghost use Rattle.serde_json.specs.Written.{compact_text};

use desk_common::push_number;
use json_text::push_quoted;
use std::alloc::AllocError;

/// Puts what stands before a text, and the text as a string, behind another text.
pub fn push_text(text: &mut Vec<u8>, before: &[u8], value: &[u8]) -> Result<(), AllocError>
    ensures { OnOk result (text.new.items ≡ text.old.items ++ (before.now ++ quoted value.now)) }
{
    text.extend_from_slice(before)?;
    push_quoted(text, value)?;
    Ok(())
}

/// Puts what stands before a count, and the count, behind a text.
pub fn push_count(text: &mut Vec<u8>, before: &[u8], count: u32) -> Result<(), AllocError>
    ensures { OnOk result (text.new.items ≡ text.old.items ++ (before.now ++ decimal count)) }
{
    text.extend_from_slice(before)?;
    push_number(text, u64::from(count))?;
    Ok(())
}

/// Puts what stands before a count, and the count or null, behind a text.
pub fn push_count_if(
    text: &mut Vec<u8>,
    before: &[u8],
    count: Option<u32>,
) -> Result<(), AllocError>
    ensures { OnOk result (text.new.items ≡ text.old.items ++ (before.now ++ compact_text (count_if count))) }
{
    text.extend_from_slice(before)?;
    push_number_if(text, count)?;
    Ok(())
}

// Puts a number, or null for none, behind a text.
fn push_number_if(text: &mut Vec<u8>, number: Option<u32>) -> Result<(), AllocError>
    ensures { OnOk result (text.new.items ≡ text.old.items ++ compact_text (count_if number)) }
{
    match number {
        Some(number) => push_number(text, u64::from(number)),
        None => text.extend_from_slice(b"null"),
    }
}

/// Puts what stands before a truth value, and the value, behind a text.
pub fn push_flag(text: &mut Vec<u8>, before: &[u8], flag: bool) -> Result<(), AllocError>
    ensures { OnOk result (text.new.items ≡ text.old.items ++ (before.now ++ compact_text (boolean flag))) }
{
    text.extend_from_slice(before)?;
    text.extend_from_slice(flag_bytes(flag))?;
    Ok(())
}

fn flag_bytes(flag: bool) -> &'static [u8]
    ensures { result.now ≡ compact_text (boolean flag) }
{
    if flag { b"true" } else { b"false" }
}
