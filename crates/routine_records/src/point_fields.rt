//! The fields of points.
ghost use Rattle.std.specs.Prelude.{◌≡◌, IfOk};
ghost use Rattle.flat_records.specs.declared.field.FieldValue.{FieldValue as Value};
ghost use Rattle.routine_records.specs.PointRecords.{class_word, count_at, failed_at, held_at};
ghost use Rattle.routine_records.specs.PointRecords.{point_fields, words_at};

use crate::told_events::text_value;
use acs_coverage::{Point, Tally, is_covered};
use acs_telling::{Source, push_comparison};
use desk_common::Items;
use flat_records::{FieldValue, Fields};
use std::alloc::{AllocError, Global};

/// The names of the fields.
pub const NAMES: [&[u8]; 9] = [
    b"routine",
    b"routine_line",
    b"routine_column",
    b"point",
    b"text",
    b"covered",
    b"count",
    b"true",
    b"false",
];

/// The fields of a point of the routine of this name, and how often it was reached.
pub fn point_fields(
    alloc: Global,
    name: &[u8],
    source: &Source,
    point: &Point,
    tally: &Tally,
) -> Result<Fields<'static>, AllocError>
    ensures { IfOk result (λ fields. fields ≡ point_fields name.now source.now point.now tally.now) }
{
    let place = source.spot_at(point.place() as usize).place;
    let routine = text_value(alloc, name)?;
    let class = text_value(alloc, class_word(point))?;
    let text = words_at(alloc, source, point)?;
    let covered = FieldValue::Truth(is_covered(point, tally));
    let mut fields = Fields::new(alloc);
    fields.push(b"routine", routine)?;
    fields.push(b"routine_line", FieldValue::Count(place.line))?;
    fields.push(b"routine_column", FieldValue::Count(place.column))?;
    fields.push(b"point", class)?;
    fields.push(b"text", text)?;
    fields.push(b"covered", covered)?;
    fields.push(b"count", count_at(point, tally))?;
    fields.push(b"true", held_at(point, tally))?;
    fields.push(b"false", failed_at(point, tally))?;
    Ok(fields)
}

// The word of a point's class.
fn class_word(point: &Point) -> &'static [u8]
    ensures { result.now ≡ class_word point.now }
{
    match point {
        Point::Statement(_) => b"STATEMENT",
        Point::When(_) => b"WHEN",
        Point::Comparison { .. } => b"COMPARISON",
    }
}

// What stands at a point.
fn words_at(alloc: Global, source: &Source, point: &Point) -> Result<FieldValue, AllocError>
    ensures { IfOk result (λ value. value ≡ Value.Text (words_at source.now point.now)) }
{
    match point {
        Point::Statement(at) | Point::When(at) => text_value(alloc, source.word_at(*at as usize)),
        Point::Comparison { left, op, right } => {
            let mut text = Vec::new(alloc);
            push_comparison(&mut text, source, *left, *op, *right)?;
            Ok(FieldValue::Text(Items::from_vec(text)))
        }
    }
}

// How often the statement ran or the WHEN was taken.
fn count_at(point: &Point, tally: &Tally) -> FieldValue
    ensures { result ≡ count_at point.now tally.now }
{
    match point {
        Point::Statement(_) => FieldValue::Count(tally.ran),
        Point::When(_) => FieldValue::Count(tally.taken),
        Point::Comparison { .. } => FieldValue::Missing,
    }
}

// How often the comparison held.
fn held_at(point: &Point, tally: &Tally) -> FieldValue
    ensures { result ≡ held_at point.now tally.now }
{
    match point {
        Point::Statement(_) | Point::When(_) => FieldValue::Missing,
        Point::Comparison { .. } => FieldValue::Count(tally.held),
    }
}

// How often it didn't.
fn failed_at(point: &Point, tally: &Tally) -> FieldValue
    ensures { result ≡ failed_at point.now tally.now }
{
    match point {
        Point::Statement(_) | Point::When(_) => FieldValue::Missing,
        Point::Comparison { .. } => FieldValue::Count(tally.failed),
    }
}
