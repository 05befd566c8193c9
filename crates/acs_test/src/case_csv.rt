// Cases as comma-separated values.
ghost use Rattle.std.specs.Prelude.{◌≡◌, ◌++◌, ◌∷◌, [], IfOk, OnOk};
ghost use Rattle.csv.specs.Writing.{default_writer, row_text};
ghost use Rattle.acs_test.specs.CaseRecords.{case_header, case_record, differs_word};
ghost use Rattle.sms_outcomes.specs.Outcomes.{classes_made};

use crate::case::Case;
use acs_tree::Slate;
use flat_records::record_text;
use sms_classes::Classified;
use sms_outcomes::outcome_text;
use std::alloc::{AllocError, Global};

const HEADER: [&[u8]; 4] = [b"case", b"differs", b"old", b"new"];

/// The names of the fields.
pub fn case_header(alloc: Global) -> Result<Vec<u8>, AllocError>
    ensures { IfOk result (λ text. text.items ≡ row_text default_writer case_header) }
{
    record_text(alloc, &HEADER)
}

/// Puts a case behind a text that comes to the one and to the other.
pub fn push_record(
    alloc: Global,
    text: &mut Vec<u8>,
    case: &Case,
    before: &Classified,
    old: &Slate,
    after: &Classified,
    new: &Slate,
    same: bool,
) -> Result<(), AllocError>
    ensures { OnOk result (text.new.items ≡ text.old.items ++ case_record case.now (classes_made before.now old.now)
        (classes_made after.now new.now) same) }
{
    let before = outcome_text(alloc, before)?;
    let after = outcome_text(alloc, after)?;
    let record = four_fields(
        alloc,
        case.name.bytes(),
        differs_word(same),
        &before,
        &after,
    )?;
    text.extend_from_slice(&record)
}

// A record of four fields.
fn four_fields<'a>(
    alloc: Global,
    first: &'a [u8],
    second: &'a [u8],
    third: &'a [u8],
    fourth: &'a [u8],
) -> Result<Vec<u8>, AllocError>
    ensures { IfOk result (λ text. text.items ≡ row_text default_writer
        (first.now ∷ second.now ∷ third.now ∷ fourth.now ∷ [])) }
{
    record_text(alloc, &[first, second, third, fourth])
}

fn differs_word(same: bool) -> &'static [u8]
    ensures { result.now ≡ differs_word same }
{
    if same { b"NO" } else { b"YES" }
}
