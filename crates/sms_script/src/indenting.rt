//! Indented lines, and lines behind a text.
ghost use Rattle.std.specs.Prelude.{◌≡◌, ◌++◌, flat_map, map, IfOk, OnOk};
ghost use Rattle.sms_script.specs.AnswerText.{ended, indented};

use crate::text_lines::{TextLines, push_line};
use desk_common::Items;
use std::alloc::{AllocError, Global};

/// Puts each text behind other lines, with two spaces before it.
pub fn push_indented(
    alloc: Global,
    lines: &mut TextLines,
    texts: &[Items<u8>],
) -> Result<(), AllocError>
    ensures { OnOk result (lines.new ≡ lines.old ++ map indented texts.now) }
{
    for text in texts {
        push_line(lines, indented(alloc, text.as_slice())?)?;
    }
    Ok(())
}

fn indented(alloc: Global, text: &[u8]) -> Result<Vec<u8>, AllocError>
    ensures { IfOk result (λ line. line.items ≡ indented text.now) }
{
    let mut line = Vec::from_slice(alloc, b"  ")?;
    line.extend_from_slice(text)?;
    Ok(line)
}

/// Puts each line behind a text, with LF behind it.
pub fn push_ended(text: &mut Vec<u8>, lines: &[Items<u8>]) -> Result<(), AllocError>
    ensures { OnOk result (text.new.items ≡ text.old.items ++ flat_map ended lines.now) }
{
    for line in lines {
        push_one(text, line.as_slice())?;
    }
    Ok(())
}

fn push_one(text: &mut Vec<u8>, line: &[u8]) -> Result<(), AllocError>
    ensures { OnOk result (text.new.items ≡ text.old.items ++ ended line.now) }
{
    text.extend_from_slice(line)?;
    text.extend_from_slice(b"\n")
}
