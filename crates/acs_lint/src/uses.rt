// What is compared in a routine, texts between quotes with wildcards, and filter lists that nothing uses.
ghost use Rattle.std.specs.Prelude.{◌≡◌, ◌++◌, IfOk, OnOk, flat_map, map};
ghost use Rattle.std.specs.List.{list_any};
ghost use Rattle.std.specs.Str.{bytes_eq};
ghost use Rattle.acs_tree.specs.declared.routine.When.{out-When};
ghost use Rattle.acs_lint.specs.Statements.{shape_of};
ghost use Rattle.acs_lint.specs.Uses.{is_wildcard, name_by, names_in, operands_at, operands_in};
ghost use Rattle.acs_lint.specs.Uses.{operands_of_cond, operands_of_test, quoted_by, quoted_in, unused_at, unused_in};

use crate::finding::Finding;
use acs_tree::{Cond, Form, Ident, Operand, OperandForm, Stmt, When, WhenTest};
use desk_common::are_same;
use std::alloc::{AllocError, Global};

/// What is compared in statements.
pub fn all_operands<'a>(
    alloc: Global,
    statements: &[&'a Stmt],
) -> Result<Vec<&'a Operand>, AllocError>
    ensures { IfOk result (λ all. map (λ operand. operand.now) all.items ≡
        operands_in (map (λ statement. statement.now) statements.now)) }
{
    let mut all = Vec::new(alloc);
    for statement in statements {
        push_compared(&mut all, statement)?;
    }
    Ok(all)
}

#[tactic(auto, using(crate::proofs::StatementLemmas::shapes))]
fn push_compared<'a>(all: &mut Vec<&'a Operand>, statement: &'a Stmt) -> Result<(), AllocError>
    ensures { OnOk result (map (λ operand. operand.now) all.new.items ≡
        map (λ operand. operand.now) all.old.items ++ operands_at (shape_of statement.now.form)) }
{
    match &statement.form {
        Form::Filt {
            include,
            exclude,
            ..
        } => {
            push_operands(all, include.as_slice())?;
            push_operands(all, exclude.as_slice())
        }
        Form::If { cond, .. } => push_condition(all, cond.get()),
        Form::Pick { whens, .. } => push_whens(all, whens.as_slice()),
        Form::Put { .. } | Form::Do(_) | Form::Write(_) | Form::Exit { .. } => Ok(()),
    }
}

pub fn push_operands<'a>(
    all: &mut Vec<&'a Operand>,
    operands: &'a [Operand],
) -> Result<(), AllocError>
    ensures { OnOk result (map (λ operand. operand.now) all.new.items ≡
        map (λ operand. operand.now) all.old.items ++ operands.now) }
{
    for operand in operands {
        if all.push(operand).is_err() {
            return Err(AllocError);
        }
    }
    Ok(())
}

#[tactic(auto, using(crate::proofs::UseLemmas::operand_steps))]
fn push_condition<'a>(all: &mut Vec<&'a Operand>, cond: &'a Cond) -> Result<(), AllocError>
    ensures { OnOk result (map (λ operand. operand.now) all.new.items ≡
        map (λ operand. operand.now) all.old.items ++ operands_of_cond cond.now) }
{
    match cond {
        Cond::And(one, two) | Cond::Or(one, two) => {
            push_condition(all, one.get())?;
            push_condition(all, two.get())
        }
        Cond::Test { right, .. } => match all.push(right) {
            Ok(()) => Ok(()),
            Err(_) => Err(AllocError),
        },
    }
}

fn push_whens<'a>(all: &mut Vec<&'a Operand>, whens: &'a [When]) -> Result<(), AllocError>
    ensures { OnOk result (map (λ operand. operand.now) all.new.items ≡
        map (λ operand. operand.now) all.old.items ++ flat_map (λ arm. operands_of_test (out-When arm).test) whens.now) }
{
    for arm in whens {
        push_test(all, &arm.test)?;
    }
    Ok(())
}

fn push_test<'a>(all: &mut Vec<&'a Operand>, test: &'a WhenTest) -> Result<(), AllocError>
    ensures { OnOk result (map (λ operand. operand.now) all.new.items ≡
        map (λ operand. operand.now) all.old.items ++ operands_of_test test.now) }
{
    match test {
        WhenTest::Any(items) => push_operands(all, items.as_slice()),
        WhenTest::Holds(cond) => push_condition(all, cond.get()),
    }
}

fn is_wildcard(byte: u8) -> bool
    ensures { result ≡ is_wildcard byte }
{
    byte == b'*' || byte == b'%'
}

fn has_wildcard(text: &[u8]) -> bool
    ensures { result ≡ list_any is_wildcard text.now }
{
    text.iter().any(|byte| is_wildcard(*byte))
}

fn push_if_quoted(found: &mut Vec<Finding>, operand: &Operand) -> Result<(), AllocError>
    ensures { OnOk result (found.new.items ≡ found.old.items ++ quoted_by operand.now.at operand.now.form) }
{
    match &operand.form {
        OperandForm::Literal(text) => {
            if has_wildcard(text.bytes()) {
                found.push(Finding::Quoted {
                    literal: operand.at,
                })?;
            }
            Ok(())
        }
        OperandForm::Word(_) | OperandForm::Var(_) => Ok(()),
    }
}

/// Finds the texts between quotes that have wildcards.
pub fn push_quoted(found: &mut Vec<Finding>, operands: &[&Operand]) -> Result<(), AllocError>
    ensures { OnOk result (found.new.items ≡ found.old.items ++
        quoted_in (map (λ operand. operand.now) operands.now)) }
{
    for operand in operands {
        push_if_quoted(found, operand)?;
    }
    Ok(())
}

/// The names among operands.
pub fn all_names<'a>(alloc: Global, operands: &[&'a Operand]) -> Result<Vec<&'a Ident>, AllocError>
    ensures { IfOk result (λ names. map (λ name. name.now) names.items ≡
        names_in (map (λ operand. operand.now) operands.now)) }
{
    let mut names = Vec::new(alloc);
    for operand in operands {
        push_name(&mut names, operand)?;
    }
    Ok(names)
}

fn push_name<'a>(names: &mut Vec<&'a Ident>, operand: &'a Operand) -> Result<(), AllocError>
    ensures { OnOk result (map (λ name. name.now) names.new.items ≡
        map (λ name. name.now) names.old.items ++ name_by operand.now.form) }
{
    match &operand.form {
        OperandForm::Var(reference) => match names.push(&reference.name) {
            Ok(()) => Ok(()),
            Err(_) => Err(AllocError),
        },
        OperandForm::Literal(_) | OperandForm::Word(_) => Ok(()),
    }
}

fn is_used(name: &Ident, names: &[&Ident]) -> bool
    ensures { result ≡ list_any (bytes_eq name.now) (map (λ other. other.now) names.now) }
{
    for other in names {
        if are_same(name.bytes(), other.bytes()) {
            return true;
        }
    }
    false
}

#[tactic(auto, using(crate::proofs::StatementLemmas::shapes))]
fn push_if_unused(
    found: &mut Vec<Finding>,
    names: &[&Ident],
    statement: &Stmt,
) -> Result<(), AllocError>
    ensures { OnOk result (found.new.items ≡ found.old.items ++
        unused_at (map (λ name. name.now) names.now) (shape_of statement.now.form)) }
{
    match &statement.form {
        Form::Filt { name, name_at, .. } => {
            if !is_used(name, names) {
                found.push(Finding::Unused { list: *name_at })?;
            }
            Ok(())
        }
        Form::Put { .. }
        | Form::If { .. }
        | Form::Pick { .. }
        | Form::Do(_)
        | Form::Write(_)
        | Form::Exit { .. } => Ok(()),
    }
}

/// Finds the filter lists that none of the names is.
pub fn push_unused(
    found: &mut Vec<Finding>,
    names: &[&Ident],
    statements: &[&Stmt],
) -> Result<(), AllocError>
    ensures { OnOk result (found.new.items ≡ found.old.items ++
        unused_in (map (λ name. name.now) names.now) (map (λ statement. statement.now) statements.now)) }
{
    for statement in statements {
        push_if_unused(found, names, statement)?;
    }
    Ok(())
}
