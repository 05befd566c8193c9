// Records of comma-separated values.
ghost use Rattle.std.specs.Prelude.{◌≡◌, decimal, map, IfOk};
ghost use Rattle.csv.specs.Writing.{default_writer, row_text};

use csv::WriterBuilder;
use desk_common::push_number;
use std::alloc::{AllocError, Global};

/// One record.
pub fn record_text(alloc: Global, fields: &[&[u8]]) -> Result<Vec<u8>, AllocError>
    ensures { IfOk result (λ text. text.items ≡ row_text default_writer (map (λ field. field.now) fields.now)) }
{
    let mut writer = WriterBuilder::new().from_writer(Vec::new(alloc));
    if writer.write_fields(fields).is_err() {
        return Err(AllocError);
    }
    match writer.into_inner() {
        Ok(text) => Ok(text),
        Err(_) => Err(AllocError),
    }
}

/// A number as a field.
pub fn number_text(alloc: Global, number: u32) -> Result<Vec<u8>, AllocError>
    ensures { IfOk result (λ text. text.items ≡ decimal number) }
{
    sum_text(alloc, u64::from(number))
}

/// The number of some things as a field.
pub fn count_text(alloc: Global, count: usize) -> Result<Vec<u8>, AllocError>
    ensures { IfOk result (λ text. text.items ≡ decimal count) }
{
    sum_text(alloc, count as u64)
}

/// A sum as a field.
pub fn sum_text(alloc: Global, sum: u64) -> Result<Vec<u8>, AllocError>
    ensures { IfOk result (λ text. text.items ≡ decimal sum) }
{
    let mut text = Vec::new(alloc);
    push_number(&mut text, sum)?;
    Ok(text)
}
