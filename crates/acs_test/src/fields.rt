//! The fields of a record.
ghost use Rattle.std.specs.Prelude.{◌≡◌, map, IfOk};
ghost use Rattle.csv.specs.Records.{fields_of};

use csv::ByteRecord;
use std::alloc::{AllocError, Global};

/// The fields of a record, in their order.
pub fn fields_in(alloc: Global, record: &ByteRecord) -> Result<Vec<&[u8]>, AllocError>
    ensures { IfOk result (λ fields. map (λ field. field.now) fields.items ≡ fields_of record.entry.now) }
{
    let mut fields = Vec::new(alloc);
    for at in 0..record.len() {
        if let Some(field) = record.get(at) {
            fields.push(field)?;
        }
    }
    Ok(fields)
}
