//! Extents as JSON.
ghost use Rattle.std.specs.Prelude.{◌≡◌, ◌++◌, IfOk, OnOk, false};
ghost use Rattle.serde_json.specs.Written.{items_text};
ghost use Rattle.store_report.specs.ExtentsJson.{extent_body, extent_values, extents_body};
ghost use Rattle.store_report.specs.Inner.Pieces.{extent_front, extent_rest, extents_piece};

use crate::extent_row::ExtentRow;
use crate::pieces::{push_count, push_text};
use std::alloc::{AllocError, Global};

/// These extents as one value of JSON.
pub fn extents_body(alloc: Global, rows: &[ExtentRow]) -> Result<Vec<u8>, AllocError>
    ensures { IfOk result (λ text. text.items ≡ extents_body rows.now) }
{
    let mut text = Vec::new(alloc);
    push_body(&mut text, rows)?;
    Ok(text)
}

fn push_body(text: &mut Vec<u8>, rows: &[ExtentRow]) -> Result<(), AllocError>
    ensures { OnOk result (text.new.items ≡ text.old.items ++ extents_piece rows.now) }
{
    text.extend_from_slice(b"{\"extents\":[")?;
    push_extents(text, rows)?;
    text.push(b'}')?;
    Ok(())
}

// Puts extents behind a text, with commas between them, and the closing bracket.
fn push_extents(text: &mut Vec<u8>, rows: &[ExtentRow]) -> Result<(), AllocError>
    ensures { OnOk result (text.new.items ≡ text.old.items ++ items_text false (extent_values rows.entry.now)) }
{
    let mut later = false;
    let mut rest = rows;
    while let [row, others @ ..] = rest {
        if later {
            text.push(b',')?;
        }
        push_extent(text, row)?;
        later = true;
        rest = others;
    }
    text.push(b']')?;
    Ok(())
}

// Puts an extent behind a text.
fn push_extent(text: &mut Vec<u8>, row: &ExtentRow) -> Result<(), AllocError>
    ensures { OnOk result (text.new.items ≡ text.old.items ++ extent_body row.now) }
{
    push_front(text, row)?;
    push_rest(text, row)?;
    Ok(())
}

// Puts its names behind a text.
fn push_front(text: &mut Vec<u8>, row: &ExtentRow) -> Result<(), AllocError>
    ensures { OnOk result (text.new.items ≡ text.old.items ++ extent_front row.now) }
{
    push_text(text, b"{\"dsn\":", row.dsn.bytes())?;
    push_text(text, b",\"volser\":", row.extent.volser.bytes())?;
    Ok(())
}

// Puts its figures behind a text.
fn push_rest(text: &mut Vec<u8>, row: &ExtentRow) -> Result<(), AllocError>
    ensures { OnOk result (text.new.items ≡ text.old.items ++ extent_rest row.now) }
{
    push_count(text, b",\"start\":", row.extent.start)?;
    push_count(text, b",\"tracks\":", row.extent.length)?;
    text.push(b'}')?;
    Ok(())
}
