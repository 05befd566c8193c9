// Cases as lines.
ghost use Rattle.std.specs.Prelude.{◌≡◌, ◌++◌, OnOk};
ghost use Rattle.acs_test.specs.Listing.{case_text, differing_head, differing_text, end_text, same_text, side_text};
ghost use Rattle.sms_outcomes.specs.Outcomes.{classes_made};

use crate::case::Case;
use crate::outcome::push_outcome_lines;
use acs_tree::Slate;
use desk_common::push_number;
use sms_classes::Classified;
use sms_script::{push_number_and_blank, push_word_and_blank};
use std::alloc::{AllocError, Global};

/// Puts the lines of a case behind a text that comes to the one and to the other.
pub fn push_lines(
    alloc: Global,
    text: &mut Vec<u8>,
    case: &Case,
    before: &Classified,
    old: &Slate,
    after: &Classified,
    new: &Slate,
    same: bool,
) -> Result<(), AllocError>
    ensures { OnOk result (text.new.items ≡ text.old.items ++ case_text case.now (classes_made before.now old.now)
        (classes_made after.now new.now) same) }
{
    if same {
        push_same(alloc, text, case, before, old)
    } else {
        push_differing(alloc, text, case, before, old, after, new)
    }
}

fn push_same(
    alloc: Global,
    text: &mut Vec<u8>,
    case: &Case,
    made: &Classified,
    written: &Slate,
) -> Result<(), AllocError>
    ensures { OnOk result (text.new.items ≡ text.old.items ++ same_text case.now (classes_made made.now written.now)) }
{
    push_word_and_blank(text, case.name.bytes())?;
    push_word_and_blank(text, b"SAME")?;
    push_outcome_lines(alloc, text, b"  ", made, written)
}

// Puts the lines of a case behind a text that comes to the one and to the other.
fn push_differing(
    alloc: Global,
    text: &mut Vec<u8>,
    case: &Case,
    before: &Classified,
    old: &Slate,
    after: &Classified,
    new: &Slate,
) -> Result<(), AllocError>
    ensures { OnOk result (text.new.items ≡ text.old.items ++ differing_text case.now (classes_made before.now old.now)
        (classes_made after.now new.now)) }
{
    push_head(text, case)?;
    push_side(alloc, text, b"  OLD ", before, old)?;
    push_side(alloc, text, b"  NEW ", after, new)?;
    Ok(())
}

fn push_head(text: &mut Vec<u8>, case: &Case) -> Result<(), AllocError>
    ensures { OnOk result (text.new.items ≡ text.old.items ++ differing_head case.now) }
{
    push_word_and_blank(text, case.name.bytes())?;
    text.extend_from_slice(b"DIFFERS\n")
}

fn push_side(
    alloc: Global,
    text: &mut Vec<u8>,
    side: &[u8],
    made: &Classified,
    written: &Slate,
) -> Result<(), AllocError>
    ensures { OnOk result (text.new.items ≡ text.old.items ++ side_text side.now (classes_made made.now written.now)) }
{
    text.extend_from_slice(side)?;
    push_outcome_lines(alloc, text, b"    ", made, written)
}

/// Puts the last line behind a text: how many cases there are, and how many of them differ.
pub fn push_end(text: &mut Vec<u8>, cases: u64, differing: u64) -> Result<(), AllocError>
    ensures { OnOk result (text.new.items ≡ text.old.items ++ end_text cases differing) }
{
    push_word_and_blank(text, b"CASES")?;
    push_number_and_blank(text, cases)?;
    push_word_and_blank(text, b"DIFFER")?;
    push_number(text, differing)?;
    text.extend_from_slice(b"\n")
}
