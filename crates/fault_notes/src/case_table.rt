//! The table of cases of a comparison, by its records.
use crate::compared::Rest;
use crate::place::{Place, place_at};
use csv::{ByteRecord, ReaderBuilder};
use std::alloc::{AllocError, Global};

/// The record with this number, from 1, if the table has it.
pub fn record_at(
    alloc: Global,
    table: Rest<'_>,
    number: u32,
) -> Result<Option<ByteRecord>, AllocError> {
    let mut reader = ReaderBuilder::new()
        .has_headers(false)
        .flexible(true)
        .from_reader(alloc, table.text);
    let mut record = ByteRecord::new(alloc);
    for _ in 0..number {
        match reader.read_byte_record(&mut record) {
            Ok(true) => (),
            Ok(false) => return Ok(None),
            Err(_) => return Err(AllocError),
        }
    }
    Ok(Some(record))
}

/// Where the field with this number, from 0, of a record stands in the table.
pub fn field_place<'a>(table: Rest<'a>, record: &ByteRecord, field: usize) -> Place<'a> {
    let from = match record.position() {
        Some(position) => position.byte() as usize,
        None => 0,
    };
    let text = table.text.get(from..).unwrap_or(&[]);
    let front = text
        .iter()
        .position(|byte| !matches!(*byte, b'\n' | b'\r'))
        .unwrap_or(0);
    let text = text.get(front..).unwrap_or(&[]);
    let before = from.saturating_add(front);
    place_at(table.text, before.saturating_add(field_offset(text, field)))
}

// How many bytes stand before the field with this number, where its record begins the text.
fn field_offset(text: &[u8], field: usize) -> usize {
    let mut left = field;
    let mut is_quoted = false;
    for (at, byte) in text.iter().enumerate() {
        if left == 0 {
            return at;
        }
        match *byte {
            b'"' => is_quoted = !is_quoted,
            b',' if !is_quoted => left = left.saturating_sub(1),
            _ => (),
        }
    }
    text.len()
}
