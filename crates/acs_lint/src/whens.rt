// WHENs that are never taken.
ghost use Rattle.std.specs.Prelude.{◌≡◌, ◌++◌, OnOk};
ghost use Rattle.std.specs.List.{list_all, list_any};
ghost use Rattle.acs_tree.specs.declared.routine.When.{out-When};
ghost use Rattle.acs_lint.specs.Whens.{any_covers, coverer, covered_if, covered_in, covers_when, items_implied};
ghost use Rattle.acs_lint.specs.Whens.{test_implied};

use crate::conditions::implies;
use crate::finding::Finding;
use crate::operands::covers;
use acs_tree::{Operand, Ref, When, WhenTest};
use std::alloc::AllocError;

// So many tokens before a WHEN an earlier one is looked at.
const MOST_TOKENS_BACK: u64 = 500;

fn any_covers(subject: &Ref, others: &[Operand], item: &Operand) -> bool
    ensures { result ≡ any_covers subject.now others.now item.now }
{
    others
        .iter()
        .any(|other| covers(subject, &other.form, &item.form))
}

fn all_covered(subject: &Ref, others: &[Operand], items: &[Operand]) -> bool
    ensures { result ≡ list_all (any_covers subject.now others.now) items.now }
{
    items.iter().all(|item| any_covers(subject, others, item))
}

fn items_implied(subject: &Option<Ref>, others: &[Operand], items: &[Operand]) -> bool
    ensures { result ≡ items_implied subject.now others.now items.now }
{
    match subject {
        None => false,
        Some(subject) => all_covered(subject, others, items),
    }
}

fn test_implied(subject: &Option<Ref>, earlier: &WhenTest, later: &WhenTest) -> bool
    ensures { result ≡ test_implied subject.now earlier.now later.now }
{
    match (earlier, later) {
        (WhenTest::Holds(earlier), WhenTest::Holds(later)) => implies(later.get(), earlier.get()),
        (WhenTest::Any(others), WhenTest::Any(items)) => {
            items_implied(subject, others.as_slice(), items.as_slice())
        }
        _ => false,
    }
}

fn covers_when(subject: &Option<Ref>, later: &When, earlier: &When) -> bool
    ensures { result ≡ covers_when subject.now later.now earlier.now }
{
    u64::from(later.at) <= u64::from(earlier.at) + MOST_TOKENS_BACK
        && test_implied(subject, &earlier.test, &later.test)
}

// The first of the earlier WHENs that covers a later one.
fn coverer(subject: &Option<Ref>, later: &When, before: &[When]) -> Option<u32>
    ensures { result ≡ coverer subject.now later.now before.now }
{
    for earlier in before {
        if covers_when(subject, later, earlier) {
            return Some(earlier.at);
        }
    }
    None
}

fn push_if_covered(found: &mut Vec<Finding>, arm: u32, since: Option<u32>) -> Result<(), AllocError>
    ensures { OnOk result (found.new.items ≡ found.old.items ++ covered_if arm since) }
{
    if let Some(since) = since {
        found.push(Finding::Covered { arm, since })?;
    }
    Ok(())
}

/// Finds the WHENs of a SELECT that earlier ones cover.
pub fn push_covered(
    found: &mut Vec<Finding>,
    subject: &Option<Ref>,
    whens: &[When],
) -> Result<(), AllocError>
    ensures { OnOk result (found.new.items ≡ found.old.items ++ covered_in subject.now whens.now) }
{
    for place in 0..whens.len() {
        let arm = &whens[place];
        push_if_covered(found, arm.at, coverer(subject, arm, &whens[..place]))?;
    }
    Ok(())
}
