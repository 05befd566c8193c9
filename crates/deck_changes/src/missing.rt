//! Lines that others haven't.
ghost use Rattle.std.specs.Prelude.{◌≡◌, ◌++◌, IfOk, OnOk, bytes_eq, map};
ghost use Rattle.std.specs.List.{list_any};
ghost use Rattle.deck_changes.specs.Differences.{difference, minus, missing, missing_line, plus, signed};

use crate::construct::Construct;
use desk_common::{Items, are_same};
use std::alloc::{AllocError, Global};

const MINUS: u8 = b'-';

const PLUS: u8 = b'+';

/// Puts behind a text the lines of constructs that are gone, and then those that are new; one that changed is both.
pub fn push_difference<T: Construct>(
    alloc: Global,
    text: &mut Vec<u8>,
    before: &[T],
    after: &[T],
) -> Result<(), AllocError>
    ensures { OnOk result (text.new.items ≡
        text.old.items ++ difference (map T.line before.now) (map T.line after.now)) }
{
    let old = lines_of(alloc, before)?;
    let new = lines_of(alloc, after)?;
    push_lines_difference(text, &old, &new)
}

/// The same of lines.
pub fn push_lines_difference(
    text: &mut Vec<u8>,
    before: &[Items<u8>],
    after: &[Items<u8>],
) -> Result<(), AllocError>
    ensures { OnOk result (text.new.items ≡ text.old.items ++ difference before.now after.now) }
{
    push_missing(text, MINUS, before, after)?;
    push_missing(text, PLUS, after, before)?;
    Ok(())
}

// The lines of constructs.
fn lines_of<T: Construct>(alloc: Global, constructs: &[T]) -> Result<Vec<Items<u8>>, AllocError>
    ensures { IfOk result (λ lines. lines.items ≡ map T.line constructs.now) }
{
    let mut lines = Vec::new(alloc);
    for construct in constructs {
        lines.push(line_of(alloc, construct)?)?;
    }
    Ok(lines)
}

fn line_of<T: Construct>(alloc: Global, construct: &T) -> Result<Items<u8>, AllocError>
    ensures { IfOk result (λ line. line ≡ T.line construct.now) }
{
    let mut line = Vec::new(alloc);
    construct.push_line(&mut line)?;
    Ok(Items::from_vec(line))
}

// Puts the lines that the others haven't behind a text, each behind a sign.
fn push_missing(
    text: &mut Vec<u8>,
    sign: u8,
    lines: &[Items<u8>],
    others: &[Items<u8>],
) -> Result<(), AllocError>
    ensures { OnOk result (text.new.items ≡ text.old.items ++ missing sign lines.now others.now) }
{
    for line in lines {
        push_if_missing(text, sign, line, others)?;
    }
    Ok(())
}

fn push_if_missing(
    text: &mut Vec<u8>,
    sign: u8,
    line: &Items<u8>,
    others: &[Items<u8>],
) -> Result<(), AllocError>
    ensures { OnOk result (text.new.items ≡ text.old.items ++ missing_line sign others.now line.now) }
{
    if has_line(others, line.as_slice()) {
        return Ok(());
    }
    push_signed(text, sign, line.as_slice())
}

fn has_line(lines: &[Items<u8>], line: &[u8]) -> bool
    ensures { result ≡ list_any (bytes_eq line.now) lines.now }
{
    lines.iter().any(|other| are_same(line, other.as_slice()))
}

/// Puts a line behind a text, behind a sign and with a line end.
pub fn push_signed(text: &mut Vec<u8>, sign: u8, line: &[u8]) -> Result<(), AllocError>
    ensures { OnOk result (text.new.items ≡ text.old.items ++ signed sign line.now) }
{
    text.push(sign)?;
    text.push(b' ')?;
    text.extend_from_slice(line)?;
    text.push(b'\n')?;
    Ok(())
}
