//! The records of a table.
ghost use Rattle.std.specs.Prelude.{◌<◌, map, IfOk};
ghost use Rattle.csv.specs.Records.{fields_of};
ghost use Rattle.acs_test.specs.Table.{IsTable};

use csv::{ByteRecord, ReaderBuilder};
use std::alloc::{AllocError, Global};

/// Every record of a table, of any lengths. Lines without a byte are no records.
pub fn all_records(alloc: Global, table: &[u8]) -> Result<Vec<ByteRecord>, AllocError>
    ensures { IfOk result (λ records. IsTable table.now (map fields_of records.items)) }
{
    let reader = ReaderBuilder::new()
        .has_headers(false)
        .flexible(true)
        .from_reader(alloc, table);
    let mut records = Vec::new(alloc);
    for record in reader.into_byte_records() {
        match record {
            Ok(record) => records.push(record)?,
            Err(_) => return Err(AllocError),
        }
    }
    Ok(records)
}
