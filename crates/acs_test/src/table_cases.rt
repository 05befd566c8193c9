//! The cases of a table.
ghost use Rattle.std.specs.Prelude.{◌≡◌, ◌<◌, ◌+◌, ◌^◌, ◌∷◌, Some, Ok, Err, length, map, IfOk, IfErr};
ghost use Rattle.csv.specs.Records.{fields_of};
ghost use Rattle.desk_common.specs.Exact.{MayRefuse};
ghost use Rattle.acs_test.specs.Columns.{columns_of};
ghost use Rattle.acs_test.specs.Records.{TableGives, cases_behind, cases_of};

use crate::case::Case;
use crate::cases_err::CasesErr;
use crate::columns::{columns_of, header_fault};
use crate::fields::fields_in;
use crate::record_case::read_record;
use crate::table::all_records;
use csv::ByteRecord;
use desk_common::Items;
use std::alloc::{AllocError, Global};

/// The cases of a table, or its first fault (docs/manual/tool.md, "Comparing two decks").
pub fn read_table(alloc: Global, table: &[u8]) -> Result<Items<Case>, CasesErr>
    requires { length table.now + 2 < 2 ^ 32 }
    ensures ok { IfOk result (λ list. TableGives table.now (Ok list)) }
    ensures err { IfErr result (MayRefuse (λ err. TableGives table.now (Err err)) (Some CasesErr.NoMemory)) }
{
    let Ok(records) = all_records(alloc, table) else {
        return Err(CasesErr::NoMemory);
    };
    match records.as_slice() {
        [] => Err(CasesErr::Header(1)),
        [header, records @ ..] => read_under(alloc, header, records),
    }
}

// The cases of the records under a header.
fn read_under(
    alloc: Global,
    header: &ByteRecord,
    records: &[ByteRecord],
) -> Result<Items<Case>, CasesErr>
    requires { length (fields_of header.now) + 1 < 2 ^ 32 }
    ensures ok { IfOk result (λ list. cases_of (fields_of header.now ∷ map fields_of records.now) ≡ Ok list) }
    ensures err { IfErr result (MayRefuse (λ err. cases_of (fields_of header.now ∷ map fields_of records.now) ≡ Err err)
        (Some CasesErr.NoMemory)) }
{
    let Ok(columns) = columns_in(alloc, header) else {
        return Err(CasesErr::NoMemory);
    };
    match header_fault(&columns) {
        Some(column) => Err(CasesErr::Header(column as u32)),
        None => read_records(alloc, &columns, records),
    }
}

fn columns_in(alloc: Global, header: &ByteRecord) -> Result<Vec<Items<u8>>, AllocError>
    ensures { IfOk result (λ columns. columns.items ≡ columns_of (fields_of header.now)) }
{
    let fields = fields_in(alloc, header)?;
    columns_of(alloc, &fields)
}

fn read_records(
    alloc: Global,
    columns: &[Items<u8>],
    records: &[ByteRecord],
) -> Result<Items<Case>, CasesErr>
    ensures ok { IfOk result (λ list. cases_behind columns.now 0 (map fields_of records.now) ≡ Ok list) }
    ensures err { IfErr result (MayRefuse (λ err. cases_behind columns.now 0 (map fields_of records.now) ≡ Err err)
        (Some CasesErr.NoMemory)) }
{
    let mut buffer = Vec::new(alloc);
    let mut list = Items::new(alloc);
    let mut count: u32 = 0;
    for record in records {
        let case = match read_record(alloc, &mut buffer, columns, count, record) {
            Ok(case) => case,
            Err(err) => return Err(err),
        };
        if list.push(case).is_err() {
            return Err(CasesErr::NoMemory);
        }
        count += 1;
    }
    Ok(list)
}
