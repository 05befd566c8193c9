//! The line of an ALLOC that a record writes.
ghost use Rattle.std.specs.Prelude.{◌≡◌, ◌++◌, length, map, OnOk};
ghost use Rattle.acs_test.specs.AllocLine.{alloc_line, operand_text, operands_text};

use desk_common::Items;
use sms_script::is_key;
use std::alloc::AllocError;

/// Fills the line with the part of an ALLOC behind its request number: the data set, and the operands of a record.
pub fn fill_line(
    line: &mut Vec<u8>,
    dsn: &[u8],
    columns: &[Items<u8>],
    fields: &[&[u8]],
) -> Result<(), AllocError>
    requires { length fields.now ≡ length columns.now }
    ensures { OnOk result (line.new.items ≡ alloc_line dsn.now columns.now (map (λ field. field.now) fields.now)) }
{
    line.clear();
    line.extend_from_slice(b"ALLOC ")?;
    line.extend_from_slice(dsn)?;
    push_operands(line, columns, fields)
}

fn push_operands(
    line: &mut Vec<u8>,
    columns: &[Items<u8>],
    fields: &[&[u8]],
) -> Result<(), AllocError>
    requires { length fields.now ≡ length columns.now }
    ensures { OnOk result (line.new.items ≡ line.old.items ++ operands_text columns.now
        (map (λ field. field.now) fields.now)) }
{
    for (at, column) in columns.iter().enumerate() {
        push_operand(line, column.as_slice(), fields[at])?;
    }
    Ok(())
}

fn push_operand(line: &mut Vec<u8>, column: &[u8], field: &[u8]) -> Result<(), AllocError>
    ensures { OnOk result (line.new.items ≡ line.old.items ++ operand_text column.now field.now) }
{
    if field.is_empty() || !is_key(column) {
        return Ok(());
    }
    line.extend_from_slice(b" ")?;
    line.extend_from_slice(column)?;
    line.extend_from_slice(b"=")?;
    line.extend_from_slice(field)
}
