// Cases as JSON.
ghost use Rattle.std.specs.Prelude.{◌≡◌, ◌++◌, OnOk, false};
ghost use Rattle.serde_json.specs.Written.{members_text};
ghost use Rattle.sms_outcomes.specs.Outcomes.{classes_made, side_members};
ghost use Rattle.acs_test.specs.CaseRecords.{case_line};
ghost use Rattle.acs_test.specs.Inner.Pieces.{case_piece, differs_piece};

use crate::case::Case;
use acs_tree::Slate;
use sms_classes::Classified;
use sms_outcomes::{push_members, push_text};
use std::alloc::{AllocError, Global};

/// Puts a case that comes to the one and to the other behind a text, as a line.
pub fn push_line(
    alloc: Global,
    text: &mut Vec<u8>,
    case: &Case,
    before: &Classified,
    old: &Slate,
    after: &Classified,
    new: &Slate,
    same: bool,
) -> Result<(), AllocError>
    ensures { OnOk result (text.new.items ≡ text.old.items ++ case_line case.now (classes_made before.now old.now)
        (classes_made after.now new.now) same) }
{
    push_parts(alloc, text, case, before, old, after, new, same)?;
    text.push(b'\n')?;
    Ok(())
}

fn push_parts(
    alloc: Global,
    text: &mut Vec<u8>,
    case: &Case,
    before: &Classified,
    old: &Slate,
    after: &Classified,
    new: &Slate,
    same: bool,
) -> Result<(), AllocError>
    ensures { OnOk result (text.new.items ≡ text.old.items ++ case_piece case.now (classes_made before.now old.now)
        (classes_made after.now new.now) same) }
{
    push_text(text, b"{\"case\":", case.name.bytes())?;
    text.extend_from_slice(differs_piece(same))?;
    push_side(alloc, text, b",\"old\":{", before, old)?;
    push_side(alloc, text, b",\"new\":{", after, new)?;
    text.push(b'}')?;
    Ok(())
}

fn differs_piece(same: bool) -> &'static [u8]
    ensures { result.now ≡ differs_piece same }
{
    if same {
        b",\"differs\":false"
    } else {
        b",\"differs\":true"
    }
}

// Puts what stands before the members of a side, and what a case comes to there.
fn push_side(
    alloc: Global,
    text: &mut Vec<u8>,
    front: &[u8],
    made: &Classified,
    written: &Slate,
) -> Result<(), AllocError>
    ensures { OnOk result (text.new.items ≡ text.old.items ++ (front.now ++
        members_text false (side_members (classes_made made.now written.now)))) }
{
    text.extend_from_slice(front)?;
    push_members(alloc, text, made, written)?;
    Ok(())
}
