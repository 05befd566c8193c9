//! Records of comma-separated values as columns.
ghost use Rattle.std.specs.Prelude.{◌≡◌, ◌≤◌, ◌++◌, IfOk, OnOk, codes, drop};
ghost use Rattle.std.specs.List.{repeat};
ghost use Rattle.store_report.specs.Columns.{blanks_behind, columns_of, first_width};

use std::alloc::{AllocError, Global};

/// The widths of the columns of each list.
pub const GROUPS_WIDTHS: [u8; 4] = [8, 7, 10, 10];

pub const VOLUMES_WIDTHS: [u8; 9] = [6, 8, 6, 10, 10, 10, 4, 3, 11];

pub const CLASSES_WIDTHS: [u8; 10] = [8, 8, 4, 8, 9, 8, 5, 10, 12, 7];

pub const SETS_WIDTHS: [u8; 8] = [44, 8, 8, 8, 8, 7, 10, 7];

pub const EXTENTS_WIDTHS: [u8; 4] = [44, 6, 10, 10];

/// The records with blanks in the place of each comma, so that the columns of these widths stand below each other.
pub fn columns_text(alloc: Global, records: &[u8], widths: &[u8]) -> Result<Vec<u8>, AllocError>
    ensures { IfOk result (λ text. text.items ≡ columns_of widths.entry.now records.entry.now) }
{
    let mut text = Vec::new(alloc);
    let mut left = widths;
    let mut count = 0usize;
    let mut rest = records;
    while let [byte, others @ ..] = rest {
        match *byte {
            b',' => {
                push_blanks(alloc, &mut text, left, count)?;
                left = behind_first(left);
                count = 0;
            }
            b'\n' => {
                text.push(b'\n')?;
                left = widths;
                count = 0;
            }
            other => {
                text.push(other)?;
                count += 1;
            }
        }
        rest = others;
    }
    Ok(text)
}

// Puts the blanks behind a field of so many bytes behind a text.
fn push_blanks(
    alloc: Global,
    text: &mut Vec<u8>,
    widths: &[u8],
    count: usize,
) -> Result<(), AllocError>
    ensures { OnOk result (text.new.items ≡ text.old.items ++ blanks_behind widths.now count) }
{
    let blanks = " ".repeat(alloc, first_width(widths).saturating_sub(count) + 2)?;
    text.extend_from_slice(blanks.as_bytes())
}

fn first_width(widths: &[u8]) -> usize
    ensures value { result ≡ first_width widths.now }
    ensures range { result ≤ 255 }
{
    match widths {
        [width, ..] => usize::from(*width),
        [] => 0,
    }
}

// The columns behind the first.
fn behind_first(widths: &[u8]) -> &[u8]
    ensures { result.now ≡ drop 1 widths.now }
{
    match widths {
        [_, others @ ..] => others,
        [] => &[],
    }
}
