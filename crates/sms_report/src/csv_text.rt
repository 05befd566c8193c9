//! Volumes as comma-separated values.
ghost use Rattle.std.specs.Prelude.{◌≡◌, ◌++◌, ◌∷◌, [], decimal, flat_map, map, IfOk, OnOk};
ghost use Rattle.csv.specs.Writing.{default_writer, row_text};
ghost use Rattle.sms_report.specs.VolumesTable.{header, table_text, volume_fields};

use csv::WriterBuilder;
use desk_common::push_number;
use sms_construct::{VolRow, VolRows};
use sms_script::status_bytes;
use std::alloc::{AllocError, Global};

const HEADER: [&[u8]; 6] = [
    b"volser",
    b"group",
    b"status",
    b"capacity",
    b"free",
    b"extents",
];

/// The table of the volumes as comma-separated values (docs/manual/script.md, "The table of volumes").
pub fn volumes_csv(alloc: Global, rows: &VolRows) -> Result<Vec<u8>, AllocError>
    ensures { IfOk result (λ text. text.items ≡ table_text rows.now) }
{
    let mut text = header_text(alloc)?;
    push_rows(alloc, &mut text, rows.as_slice())?;
    Ok(text)
}

fn header_text(alloc: Global) -> Result<Vec<u8>, AllocError>
    ensures { IfOk result (λ text. text.items ≡ row_text default_writer header) }
{
    record_text(alloc, &HEADER)
}

fn push_rows(alloc: Global, text: &mut Vec<u8>, rows: &[VolRow]) -> Result<(), AllocError>
    ensures { OnOk result (text.new.items ≡
        text.old.items ++ flat_map (λ row. row_text default_writer (volume_fields row)) rows.now) }
{
    for row in rows {
        push_row(alloc, text, row)?;
    }
    Ok(())
}

fn push_row(alloc: Global, text: &mut Vec<u8>, row: &VolRow) -> Result<(), AllocError>
    ensures { OnOk result (text.new.items ≡ text.old.items ++ row_text default_writer (volume_fields row.now)) }
{
    let capacity = number_text(alloc, row.capacity)?;
    let free = number_text(alloc, row.free)?;
    let extents = number_text(alloc, row.extents)?;
    let record = six_fields(
        alloc,
        row.volser.bytes(),
        row.group.bytes(),
        status_bytes(row.status),
        &capacity,
        &free,
        &extents,
    )?;
    text.extend_from_slice(&record)
}

// A record of six fields.
fn six_fields<'a>(
    alloc: Global,
    first: &'a [u8],
    second: &'a [u8],
    third: &'a [u8],
    fourth: &'a [u8],
    fifth: &'a [u8],
    sixth: &'a [u8],
) -> Result<Vec<u8>, AllocError>
    ensures { IfOk result (λ text. text.items ≡
        row_text default_writer (first.now ∷ second.now ∷ third.now ∷ fourth.now ∷ fifth.now ∷ sixth.now ∷ [])) }
{
    record_text(alloc, &[first, second, third, fourth, fifth, sixth])
}

fn number_text(alloc: Global, number: u32) -> Result<Vec<u8>, AllocError>
    ensures { IfOk result (λ text. text.items ≡ decimal number) }
{
    let mut text = Vec::new(alloc);
    push_number(&mut text, u64::from(number))?;
    Ok(text)
}

// One record.
fn record_text(alloc: Global, fields: &[&[u8]]) -> Result<Vec<u8>, AllocError>
    ensures { IfOk result (λ text. text.items ≡ row_text default_writer (map (λ field. field.now) fields.now)) }
{
    let mut writer = WriterBuilder::new().from_writer(Vec::new(alloc));
    if writer.write_fields(fields).is_err() {
        return Err(AllocError);
    }
    match writer.into_inner() {
        Ok(text) => Ok(text),
        Err(_) => Err(AllocError),
    }
}
