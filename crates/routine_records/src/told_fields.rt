//! The fields of what is told.
ghost use Rattle.std.specs.Prelude.{◌≡◌, IfOk};
ghost use Rattle.routine_records.specs.EventRecords.{column_of, item_fields, line_of, told_fields};

use crate::told::Told;
use crate::told_events::text_value;
use acs_places::Place;
use flat_records::{FieldValue, Fields};
use sms_script::Item;
use std::alloc::{AllocError, Global};

/// The names of the fields.
pub const NAMES: [&[u8]; 10] = [
    b"line",
    b"job",
    b"number",
    b"routine",
    b"event",
    b"routine_line",
    b"routine_column",
    b"text",
    b"holds",
    b"value",
];

/// The fields of what is told of the ALLOC of an item in a routine, or in none.
pub fn told_fields(
    alloc: Global,
    item: &Item,
    routine: FieldValue,
    told: Told,
) -> Result<Fields<'static>, AllocError>
    ensures { IfOk result (λ fields. fields ≡ told_fields item.now routine told) }
{
    let event = text_value(alloc, told.event.word())?;
    let (line, column) = (line_of(told.place), column_of(told.place));
    let mut fields = item_fields(alloc, item)?;
    fields.push(b"routine", routine)?;
    fields.push(b"event", event)?;
    fields.push(b"routine_line", line)?;
    fields.push(b"routine_column", column)?;
    fields.push(b"text", told.text)?;
    fields.push(b"holds", told.holds)?;
    fields.push(b"value", told.value)?;
    Ok(fields)
}

// The line of an item in its script, its job and its number.
fn item_fields(alloc: Global, item: &Item) -> Result<Fields<'static>, AllocError>
    ensures { IfOk result (λ fields. fields ≡ item_fields item.now) }
{
    let job = text_value(alloc, item.request.job.bytes())?;
    let number = FieldValue::Count(u64::from(item.request.number.get()));
    let mut fields = Fields::new(alloc);
    fields.push(b"line", FieldValue::Count(u64::from(item.line)))?;
    fields.push(b"job", job)?;
    fields.push(b"number", number)?;
    Ok(fields)
}

// The line of a place, if there is one.
fn line_of(place: Option<Place>) -> FieldValue
    ensures { result ≡ line_of place }
{
    match place {
        Some(place) => FieldValue::Count(place.line),
        None => FieldValue::Missing,
    }
}

// Its column.
fn column_of(place: Option<Place>) -> FieldValue
    ensures { result ≡ column_of place }
{
    match place {
        Some(place) => FieldValue::Count(place.column),
        None => FieldValue::Missing,
    }
}
