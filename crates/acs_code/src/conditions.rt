// The code of conditions.
ghost use Rattle.std.specs.Prelude.{◌≤◌, ◌≡◌, false, length, if◌then◌else◌, OnOk};
ghost use Rattle.acs_tree.specs.Compares.{texts_compare};
ghost use Rattle.acs_tree.specs.Conditions.{comparison, equals_any, holds, when_holds};
ghost use Rattle.acs_code.specs.Compiled.{filters_of};
ghost use Rattle.acs_code.specs.Inner.Upward.{Branches};

use crate::fork::Fork;
use crate::instr::Instr;
use crate::lists::Lists;
use crate::parts::slot;
use crate::probe::Probe;
use crate::rights::right;
use crate::upward::Upward;
use acs_tree::{Compare, Cond, Kind, Operand, Ref, WhenTest};
use std::alloc::AllocError;

/// What a WHEN asks, in a SELECT of a variable or of none.
pub fn when(
    code: &mut Upward,
    kind: Kind,
    lists: &Lists<'_>,
    subject: &Option<Ref>,
    test: &WhenTest,
    fork: Fork,
) -> Result<(), AllocError>
    requires holds { fork.holds ≤ length code.old }
    requires fails { fork.fails ≤ length code.old }
    ensures { OnOk result (Branches kind (filters_of lists.now)
        (when_holds lists.now subject.now test.now) fork.holds fork.fails code.old code.new) }
{
    match test {
        WhenTest::Holds(cond) => condition(code, kind, lists, cond.get(), fork),
        WhenTest::Any(operands) => match subject {
            Some(subject) => items(code, kind, lists, subject, operands.as_slice(), fork),
            None => code.put(Instr::Jump(fork.fails)),
        },
    }
}

pub fn condition(
    code: &mut Upward,
    kind: Kind,
    lists: &Lists<'_>,
    cond: &Cond,
    fork: Fork,
) -> Result<(), AllocError>
    requires holds { fork.holds ≤ length code.old }
    requires fails { fork.fails ≤ length code.old }
    ensures { OnOk result (Branches kind (filters_of lists.now)
        (holds lists.now cond.now) fork.holds fork.fails code.old code.new) }
{
    match cond {
        Cond::And(one, two) => {
            condition(code, kind, lists, two.get(), fork)?;
            let second = Fork {
                holds: code.place(),
                fails: fork.fails,
            };
            condition(code, kind, lists, one.get(), second)
        }
        Cond::Or(one, two) => {
            condition(code, kind, lists, two.get(), fork)?;
            let second = Fork {
                holds: fork.holds,
                fails: code.place(),
            };
            condition(code, kind, lists, one.get(), second)
        }
        Cond::Test {
            left,
            op,
            right,
            ..
        } => comparison(code, kind, lists, left, *op, right, fork),
    }
}

// The variable equals one of the items.
fn items(
    code: &mut Upward,
    kind: Kind,
    lists: &Lists<'_>,
    subject: &Ref,
    items: &[Operand],
    fork: Fork,
) -> Result<(), AllocError>
    requires holds { fork.holds ≤ length code.old }
    requires fails { fork.fails ≤ length code.old }
    ensures { OnOk result (Branches kind (filters_of lists.now)
        (equals_any lists.now subject.now items.now) fork.holds fork.fails code.old code.new) }
{
    code.put(Instr::Jump(fork.fails))?;
    let mut left = items.len();
    while left > 0 {
        left -= 1;
        let next = Fork {
            holds: fork.holds,
            fails: code.place(),
        };
        comparison(code, kind, lists, subject, Compare::Eq, &items[left], next)?;
    }
    Ok(())
}

// A comparison that nothing can meet is a jump.
fn comparison(
    code: &mut Upward,
    kind: Kind,
    lists: &Lists<'_>,
    left: &Ref,
    op: Compare,
    operand: &Operand,
    fork: Fork,
) -> Result<(), AllocError>
    requires holds { fork.holds ≤ length code.old }
    requires fails { fork.fails ≤ length code.old }
    ensures { OnOk result (Branches kind (filters_of lists.now)
        (comparison lists.now left.now op operand.now) fork.holds fork.fails code.old code.new) }
{
    match right(lists, left, operand) {
        Some(right) => code.put(Instr::Test {
            probe: Probe {
                left: slot(left),
                op,
                right,
            },
            yes: fork.holds,
            no: fork.fails,
        }),
        None => code.put(Instr::Jump(beside_nothing(op, fork))),
    }
}

// Where a comparison with nothing goes on: only NE holds.
fn beside_nothing(op: Compare, fork: Fork) -> u64
    ensures { result ≡ (if texts_compare op false then fork.holds else fork.fails) }
{
    match op {
        Compare::Ne => fork.holds,
        _ => fork.fails,
    }
}
