//! Records as comma-separated values.
ghost use Rattle.std.specs.Prelude.{◌≡◌, ◌++◌, IfOk, OnOk, map};
ghost use Rattle.csv.specs.Writing.{default_writer, row_text};
ghost use Rattle.flat_records.specs.Records.{named_of, text_of, texts_of};

use crate::csv_record::record_text;
use crate::field::{Field, FieldValue};
use desk_common::{Items, push_number};
use std::alloc::{AllocError, Global};

/// Puts a record behind a text.
pub fn push_csv(alloc: Global, text: &mut Vec<u8>, fields: &[Field<'_>]) -> Result<(), AllocError>
    ensures { OnOk result (text.new.items ≡ text.old.items ++
        row_text default_writer (texts_of (map named_of fields.now))) }
{
    let texts = texts_of(alloc, fields)?;
    let record = joined(alloc, &texts)?;
    text.extend_from_slice(&record)
}

// The texts of the fields.
fn texts_of(alloc: Global, fields: &[Field<'_>]) -> Result<Vec<Items<u8>>, AllocError>
    ensures { IfOk result (λ texts. texts.items ≡ texts_of (map named_of fields.now)) }
{
    let mut texts = Vec::new(alloc);
    for field in fields {
        let text = text_of(alloc, &field.value)?;
        texts.push(text)?;
    }
    Ok(texts)
}

// What a field holds, as text.
fn text_of(alloc: Global, value: &FieldValue) -> Result<Items<u8>, AllocError>
    ensures { IfOk result (λ text. text ≡ text_of value.now) }
{
    match value {
        FieldValue::Text(text) => Items::from_slice(alloc, text.as_slice()),
        FieldValue::Count(count) => number_text(alloc, *count),
        FieldValue::Truth(true) => Items::from_slice(alloc, b"true"),
        FieldValue::Truth(false) => Items::from_slice(alloc, b"false"),
        FieldValue::Missing => Ok(Items::new(alloc)),
    }
}

fn number_text(alloc: Global, count: u64) -> Result<Items<u8>, AllocError>
    ensures { IfOk result (λ text. text ≡ text_of (FieldValue.Count count)) }
{
    let mut text = Vec::new(alloc);
    push_number(&mut text, count)?;
    Ok(Items::from_vec(text))
}

// A record of these texts.
fn joined(alloc: Global, texts: &[Items<u8>]) -> Result<Vec<u8>, AllocError>
    ensures { IfOk result (λ text. text.items ≡ row_text default_writer texts.now) }
{
    let slices = slices_of(alloc, texts)?;
    record_text(alloc, &slices)
}

fn slices_of<'a>(alloc: Global, texts: &'a [Items<u8>]) -> Result<Vec<&'a [u8]>, AllocError>
    ensures { IfOk result (λ slices. map (λ slice. slice.now) slices.items ≡ texts.entry.now) }
{
    let mut slices = Vec::new(alloc);
    for text in texts {
        slices.push(text.as_slice())?;
    }
    Ok(slices)
}
