// Cases in the forms of a listing.
ghost use Rattle.std.specs.Prelude.{◌≡◌, ◌++◌, IfOk, OnOk};
ghost use Rattle.acs_test.specs.Listing.{end_in, front_in, text_in};
ghost use Rattle.sms_outcomes.specs.Outcomes.{classes_made};

use crate::case::Case;
use crate::case_csv::{case_header, push_record};
use crate::case_json::push_line;
use crate::case_lines::{push_end, push_lines};
use crate::form::CaseForm;
use acs_tree::Slate;
use sms_classes::Classified;
use std::alloc::{AllocError, Global};

/// Puts a case behind a text, in a form, that comes to the one and to the other.
pub fn push_case_text(
    alloc: Global,
    text: &mut Vec<u8>,
    form: CaseForm,
    case: &Case,
    before: &Classified,
    old: &Slate,
    after: &Classified,
    new: &Slate,
    same: bool,
) -> Result<(), AllocError>
    ensures { OnOk result (text.new.items ≡ text.old.items ++ text_in form case.now (classes_made before.now old.now)
        (classes_made after.now new.now) same) }
{
    match form {
        CaseForm::Lines => push_lines(alloc, text, case, before, old, after, new, same),
        CaseForm::Csv => push_record(alloc, text, case, before, old, after, new, same),
        CaseForm::Json => push_line(alloc, text, case, before, old, after, new, same),
    }
}

/// The text of a listing in a form, from that of its cases.
pub fn whole_text(
    alloc: Global,
    form: CaseForm,
    listed: &[u8],
    cases: u64,
    differing: u64,
) -> Result<Vec<u8>, AllocError>
    ensures { IfOk result (λ text. text.items ≡ front_in form ++ (listed.now ++ end_in form cases differing)) }
{
    let mut text = front_text(alloc, form)?;
    text.extend_from_slice(listed)?;
    push_end_text(&mut text, form, cases, differing)?;
    Ok(text)
}

// What stands before the cases.
fn front_text(alloc: Global, form: CaseForm) -> Result<Vec<u8>, AllocError>
    ensures { IfOk result (λ text. text.items ≡ front_in form) }
{
    match form {
        CaseForm::Csv => case_header(alloc),
        CaseForm::Lines | CaseForm::Json => Ok(Vec::new(alloc)),
    }
}

// What stands behind the cases.
fn push_end_text(
    text: &mut Vec<u8>,
    form: CaseForm,
    cases: u64,
    differing: u64,
) -> Result<(), AllocError>
    ensures { OnOk result (text.new.items ≡ text.old.items ++ end_in form cases differing) }
{
    match form {
        CaseForm::Lines => push_end(text, cases, differing),
        CaseForm::Csv | CaseForm::Json => Ok(()),
    }
}
