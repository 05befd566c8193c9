// The record of a finding.
ghost use Rattle.std.specs.Prelude.{◌≡◌, ◌++◌, ◌∷◌, [], IfOk, OnOk};
ghost use Rattle.csv.specs.Writing.{default_writer, row_text};
ghost use Rattle.serde_json.specs.Written.{compact_text};
ghost use Rattle.lint_records.specs.FindingRecords.{count_field, count_if, finding_fields, record_in};
ghost use Rattle.lint_records.specs.FindingRecords.{column_of, line_of, since_value};
ghost use Rattle.lint_records.specs.Inner.Pieces.{at_piece, finding_piece, place_piece, what_piece};

use acs_places::Place;
use desk_common::push_number;
use flat_records::{RecordForm, record_text};
use sms_outcomes::push_text;
use std::alloc::{AllocError, Global};

/// Puts a record behind a text: where something is found, at what, with its place if it has one, what is found, and the
/// place that makes it so, if one does.
pub fn push_record(
    alloc: Global,
    text: &mut Vec<u8>,
    form: RecordForm,
    at: &[u8],
    name: &[u8],
    place: Option<Place>,
    what: &[u8],
    since: Option<Place>,
) -> Result<(), AllocError>
    ensures { OnOk result (text.new.items ≡ text.old.items ++ record_in form
        (record { at = at.now; name = name.now; place = place; what = what.now; since = since })) }
{
    match form {
        RecordForm::Csv => push_fields(alloc, text, at, name, place, what, since),
        RecordForm::Json => push_line(text, at, name, place, what, since),
    }
}

fn push_fields(
    alloc: Global,
    text: &mut Vec<u8>,
    at: &[u8],
    name: &[u8],
    place: Option<Place>,
    what: &[u8],
    since: Option<Place>,
) -> Result<(), AllocError>
    ensures { OnOk result (text.new.items ≡ text.old.items ++ row_text default_writer (finding_fields
        (record { at = at.now; name = name.now; place = place; what = what.now; since = since }))) }
{
    let line = count_field(alloc, line_of(place))?;
    let column = count_field(alloc, column_of(place))?;
    let since_line = count_field(alloc, line_of(since))?;
    let since_column = count_field(alloc, column_of(since))?;
    let record = seven_fields(
        alloc,
        at,
        name,
        &line,
        &column,
        what,
        &since_line,
        &since_column,
    )?;
    text.extend_from_slice(&record)
}

// A record of seven fields.
fn seven_fields<'a>(
    alloc: Global,
    first: &'a [u8],
    second: &'a [u8],
    third: &'a [u8],
    fourth: &'a [u8],
    fifth: &'a [u8],
    sixth: &'a [u8],
    seventh: &'a [u8],
) -> Result<Vec<u8>, AllocError>
    ensures { IfOk result (λ text. text.items ≡ row_text default_writer (first.now ∷ second.now ∷ third.now ∷
        fourth.now ∷ fifth.now ∷ sixth.now ∷ seventh.now ∷ [])) }
{
    record_text(
        alloc,
        &[first, second, third, fourth, fifth, sixth, seventh],
    )
}

// A count as a field, and nothing where there is none.
fn count_field(alloc: Global, count: Option<u64>) -> Result<Vec<u8>, AllocError>
    ensures { IfOk result (λ text. text.items ≡ count_field count) }
{
    let mut text = Vec::new(alloc);
    if let Some(count) = count {
        push_number(&mut text, count)?;
    }
    Ok(text)
}

fn line_of(place: Option<Place>) -> Option<u64>
    ensures { result ≡ line_of place }
{
    match place {
        Some(place) => Some(place.line),
        None => None,
    }
}

fn column_of(place: Option<Place>) -> Option<u64>
    ensures { result ≡ column_of place }
{
    match place {
        Some(place) => Some(place.column),
        None => None,
    }
}

fn push_line(
    text: &mut Vec<u8>,
    at: &[u8],
    name: &[u8],
    place: Option<Place>,
    what: &[u8],
    since: Option<Place>,
) -> Result<(), AllocError>
    ensures { OnOk result (text.new.items ≡ text.old.items ++ record_in RecordForm.Json
        (record { at = at.now; name = name.now; place = place; what = what.now; since = since })) }
{
    push_parts(text, at, name, place, what, since)?;
    text.push(b'\n')?;
    Ok(())
}

fn push_parts(
    text: &mut Vec<u8>,
    at: &[u8],
    name: &[u8],
    place: Option<Place>,
    what: &[u8],
    since: Option<Place>,
) -> Result<(), AllocError>
    ensures { OnOk result (text.new.items ≡ text.old.items ++ finding_piece
        (record { at = at.now; name = name.now; place = place; what = what.now; since = since })) }
{
    push_at(text, at, name, place)?;
    push_what(text, what, since)?;
    Ok(())
}

fn push_at(
    text: &mut Vec<u8>,
    at: &[u8],
    name: &[u8],
    place: Option<Place>,
) -> Result<(), AllocError>
    ensures { OnOk result (text.new.items ≡ text.old.items ++ at_piece at.now name.now place) }
{
    push_text(text, b"{\"in\":", at)?;
    push_text(text, b",\"name\":", name)?;
    push_count_if(text, b",\"line\":", line_of(place))?;
    push_count_if(text, b",\"column\":", column_of(place))?;
    Ok(())
}

fn push_what(text: &mut Vec<u8>, what: &[u8], since: Option<Place>) -> Result<(), AllocError>
    ensures { OnOk result (text.new.items ≡ text.old.items ++ what_piece what.now since) }
{
    push_text(text, b",\"finding\":", what)?;
    text.extend_from_slice(b",\"since\":")?;
    push_since(text, since)?;
    text.push(b'}')?;
    Ok(())
}

// Puts what stands before a count, and the count or null.
fn push_count_if(text: &mut Vec<u8>, front: &[u8], count: Option<u64>) -> Result<(), AllocError>
    ensures { OnOk result (text.new.items ≡ text.old.items ++ (front.now ++ compact_text (count_if count))) }
{
    text.extend_from_slice(front)?;
    push_count_or_null(text, count)?;
    Ok(())
}

fn push_count_or_null(text: &mut Vec<u8>, count: Option<u64>) -> Result<(), AllocError>
    ensures { OnOk result (text.new.items ≡ text.old.items ++ compact_text (count_if count)) }
{
    match count {
        Some(count) => push_number(text, count),
        None => text.extend_from_slice(b"null"),
    }
}

// Puts the place that makes something so, or null.
fn push_since(text: &mut Vec<u8>, since: Option<Place>) -> Result<(), AllocError>
    ensures { OnOk result (text.new.items ≡ text.old.items ++ compact_text (since_value since)) }
{
    match since {
        Some(place) => push_place(text, place),
        None => text.extend_from_slice(b"null"),
    }
}

fn push_place(text: &mut Vec<u8>, place: Place) -> Result<(), AllocError>
    ensures { OnOk result (text.new.items ≡ text.old.items ++ place_piece place) }
{
    text.extend_from_slice(b"{\"line\":")?;
    push_number(text, place.line)?;
    text.extend_from_slice(b",\"column\":")?;
    push_number(text, place.column)?;
    text.push(b'}')?;
    Ok(())
}
