//! The listing of a comparison.
ghost use Rattle.std.specs.Prelude.{◌≡◌, ◌<◌, ◌+◌, ◌^◌, ◌++◌, IfOk};
ghost use Rattle.acs_test.specs.Listing.{IsListing, IsListingOf, IsSame, classes_for, count_differing, listed_text};

use crate::case::Case;
use crate::case_text::{push_case_text, whole_text};
use crate::cases::Cases;
use crate::form::CaseForm;
use crate::outcome::{are_same, classified};
use acs_tree::Slate;
use std::alloc::{AllocError, Global};

/// The listing of a comparison.
#[derive(Drop)]
pub struct Listing {
    pub text: Vec<u8>,
    /// How many of the cases differ.
    pub differing: u64,
}

/// What each case comes to under both configurations, and which differ (docs/manual/tool.md, "Comparing two decks").
/// Nothing is allocated on a desk.
pub fn compare(alloc: Global, cases: &Cases) -> Result<Vec<u8>, AllocError>
    ensures { IfOk result (λ text. IsListing cases.now.before cases.now.after cases.now.list text.items) }
{
    let listing = list_cases(alloc, cases, CaseForm::Lines, false)?;
    Ok(listing.text)
}

/// The same in a form, or with `changed` of the cases that differ alone, and how many these are.
pub fn list_cases(
    alloc: Global,
    cases: &Cases,
    form: CaseForm,
    changed: bool,
) -> Result<Listing, AllocError>
    ensures { IfOk result (λ made. IsListingOf cases.now.before cases.now.after form changed cases.now.list
        made.differing made.text.items) }
{
    let mut text = Vec::new(alloc);
    let mut old = Slate::new(alloc)?;
    let mut new = Slate::new(alloc)?;
    let list = cases.list.as_slice();
    let mut differing: u64 = 0;
    for case in list {
        let same = push_case(
            alloc, &mut text, cases, case, form, changed, &mut old, &mut new,
        )?;
        differing = counted(differing, same);
    }
    let whole = whole_text(alloc, form, &text, list.len() as u64, differing)?;
    Ok(Listing {
        text: whole,
        differing,
    })
}

// One more where the case isn't the same.
fn counted(differing: u64, same: bool) -> u64
    requires { differing + 1 < 2 ^ 64 }
    ensures { result ≡ count_differing same differing }
{
    if same { differing } else { differing + 1 }
}

// Puts a case behind a text, with `changed` only where it differs, and tells whether it comes to the same under both
// configurations.
#[tactic(auto, using(crate::proofs::ListingLemmas::left_out))]
fn push_case(
    alloc: Global,
    text: &mut Vec<u8>,
    cases: &Cases,
    case: &Case,
    form: CaseForm,
    changed: bool,
    old: &mut Slate,
    new: &mut Slate,
) -> Result<bool, AllocError>
    ensures same { IfOk result (IsSame cases.now.before cases.now.after case.now) }
    ensures text { IfOk result (λ same. text.new.items ≡ text.old.items ++ listed_text form changed case.now
        (classes_for cases.now.before case.now) (classes_for cases.now.after case.now) same) }
{
    let before = classified(&cases.before, case, old);
    let after = classified(&cases.after, case, new);
    let same = are_same(&before, old, &after, new);
    if changed && same {
        return Ok(true);
    }
    push_case_text(alloc, text, form, case, &before, old, &after, new, same)?;
    Ok(same)
}
