//! Records as objects of JSON.
ghost use Rattle.std.specs.Prelude.{◌≡◌, ◌++◌, OnOk, false, map};
ghost use Rattle.serde_json.specs.Written.{compact_text, members_text};
ghost use Rattle.flat_records.specs.Records.{data_of, members_of, named_of, object_text};
ghost use Rattle.flat_records.specs.Inner.Pieces.{member_piece};

use crate::field::{Field, FieldValue};
use desk_common::push_number;
use json_text::push_quoted;
use std::alloc::AllocError;

/// Puts a record behind a text.
pub fn push_object(text: &mut Vec<u8>, fields: &[Field<'_>]) -> Result<(), AllocError>
    ensures { OnOk result (text.new.items ≡ text.old.items ++ object_text (map named_of fields.now)) }
{
    text.push(b'{')?;
    push_members(text, fields)?;
    Ok(())
}

// Puts the members behind a text, with commas between them, and the closing brace.
fn push_members(text: &mut Vec<u8>, fields: &[Field<'_>]) -> Result<(), AllocError>
    ensures { OnOk result (text.new.items ≡ text.old.items ++
        members_text false (members_of (map named_of fields.entry.now))) }
{
    let mut later = false;
    let mut rest = fields;
    while let [field, others @ ..] = rest {
        if later {
            text.push(b',')?;
        }
        push_member(text, field)?;
        later = true;
        rest = others;
    }
    text.push(b'}')?;
    Ok(())
}

fn push_member(text: &mut Vec<u8>, field: &Field<'_>) -> Result<(), AllocError>
    ensures { OnOk result (text.new.items ≡ text.old.items ++ member_piece (named_of field.now)) }
{
    push_quoted(text, field.name)?;
    text.push(b':')?;
    push_value(text, &field.value)
}

fn push_value(text: &mut Vec<u8>, value: &FieldValue) -> Result<(), AllocError>
    ensures { OnOk result (text.new.items ≡ text.old.items ++ compact_text (data_of value.now)) }
{
    match value {
        FieldValue::Text(bytes) => push_quoted(text, bytes.as_slice()),
        FieldValue::Count(count) => push_number(text, *count),
        FieldValue::Truth(true) => text.extend_from_slice(b"true"),
        FieldValue::Truth(false) => text.extend_from_slice(b"false"),
        FieldValue::Missing => text.extend_from_slice(b"null"),
    }
}
