//! Linting of a routine.
ghost use Rattle.std.specs.Prelude.{◌≡◌, ◌++◌, IfOk, OnOk, flat_map, map};
ghost use Rattle.std.specs.List.{AllByRecursion};
ghost use Rattle.acs_lint.specs.Findings.{compared_in, compared_with, findings_of, found_at};
ghost use Rattle.acs_lint.specs.Meant.{IsFinding};
ghost use Rattle.acs_lint.specs.Uses.{names_in, unused_in};

use crate::blocks::push_behind;
use crate::entries::push_spare;
use crate::finding::{Finding, Findings};
use crate::statements::all_statements;
use crate::uses::{all_names, all_operands, push_quoted, push_unused};
use crate::whens::push_covered;
use acs_tree::{Form, Operand, Routine, Stmt};
use desk_common::Items;
use std::alloc::{AllocError, Global};

/// What in a routine is certain and hardly meant so; each finding is true, and not all that may be found is
/// (docs/manual/tool.md, "Linting a deck").
pub fn lint(alloc: Global, routine: &Routine) -> Result<Findings, AllocError>
    ensures found { IfOk result (λ findings. findings ≡ findings_of routine.now) }
    ensures meant { IfOk result (AllByRecursion (IsFinding routine.now)) }
{
    all_found(alloc, routine)
}

fn all_found(alloc: Global, routine: &Routine) -> Result<Findings, AllocError>
    ensures { IfOk result (λ findings. findings ≡ findings_of routine.now) }
{
    let mut found = Vec::new(alloc);
    push_behind(&mut found, routine.body.as_slice())?;
    let statements = all_statements(alloc, routine)?;
    push_found(&mut found, &statements)?;
    push_compared(alloc, &mut found, &statements)?;
    Ok(Items::from_vec(found))
}

// What is found on each statement.
fn push_found(found: &mut Vec<Finding>, statements: &[&Stmt]) -> Result<(), AllocError>
    ensures { OnOk result (found.new.items ≡ found.old.items ++
        flat_map found_at (map (λ statement. statement.now) statements.now)) }
{
    for statement in statements {
        push_found_at(found, statement)?;
    }
    Ok(())
}

#[tactic(auto, using(crate::proofs::StatementLemmas::shapes))]
fn push_found_at(found: &mut Vec<Finding>, statement: &Stmt) -> Result<(), AllocError>
    ensures { OnOk result (found.new.items ≡ found.old.items ++ found_at statement.now) }
{
    match &statement.form {
        Form::Filt {
            include,
            exclude,
            ..
        } => {
            push_spare(found, include.as_slice())?;
            push_spare(found, exclude.as_slice())
        }
        Form::Pick { subject, whens, .. } => push_covered(found, subject, whens.as_slice()),
        Form::Do(block) => push_behind(found, block.as_slice()),
        Form::Put { .. } | Form::If { .. } | Form::Write(_) | Form::Exit { .. } => Ok(()),
    }
}

// What is found on what is compared in the statements.
fn push_compared(
    alloc: Global,
    found: &mut Vec<Finding>,
    statements: &[&Stmt],
) -> Result<(), AllocError>
    ensures { OnOk result (found.new.items ≡ found.old.items ++
        compared_in (map (λ statement. statement.now) statements.now)) }
{
    let operands = all_operands(alloc, statements)?;
    push_compared_with(alloc, found, &operands, statements)
}

// The same, where these operands are compared in them.
fn push_compared_with(
    alloc: Global,
    found: &mut Vec<Finding>,
    operands: &[&Operand],
    statements: &[&Stmt],
) -> Result<(), AllocError>
    ensures { OnOk result (found.new.items ≡ found.old.items ++
        compared_with (map (λ operand. operand.now) operands.now) (map (λ statement. statement.now) statements.now)) }
{
    push_quoted(found, operands)?;
    push_unused_of(alloc, found, operands, statements)
}

// The filter lists that none of the operands names.
fn push_unused_of(
    alloc: Global,
    found: &mut Vec<Finding>,
    operands: &[&Operand],
    statements: &[&Stmt],
) -> Result<(), AllocError>
    ensures { OnOk result (found.new.items ≡ found.old.items ++
        unused_in (names_in (map (λ operand. operand.now) operands.now))
        (map (λ statement. statement.now) statements.now)) }
{
    let names = all_names(alloc, operands)?;
    push_unused(found, &names, statements)
}
