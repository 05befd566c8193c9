//! What the SETs of a routine set.
ghost use Rattle.std.specs.Prelude.{◌≡◌, ◌++◌, IfOk, OnOk, map};
ghost use Rattle.acs_lint.specs.Statements.{shape_of};
ghost use Rattle.acs_lint.specs.Uses.{may_be, may_be_set, values_at, values_in, values_of};

use crate::statements::all_statements;
use crate::uses::push_operands;
use acs_tree::{Form, Operand, OperandForm, Routine, Stmt};
use desk_common::are_same;
use std::alloc::{AllocError, Global};

/// The values that the SETs of a routine set, in the order of its text.
pub fn set_values(alloc: Global, routine: &Routine) -> Result<Vec<&Operand>, AllocError>
    ensures { IfOk result (λ all. map (λ value. value.now) all.items ≡ values_of routine.now) }
{
    let statements = all_statements(alloc, routine)?;
    all_values(alloc, &statements)
}

fn all_values<'a>(alloc: Global, statements: &[&'a Stmt]) -> Result<Vec<&'a Operand>, AllocError>
    ensures { IfOk result (λ all. map (λ value. value.now) all.items ≡
        values_in (map (λ statement. statement.now) statements.now)) }
{
    let mut all = Vec::new(alloc);
    for statement in statements {
        push_values(&mut all, statement)?;
    }
    Ok(all)
}

#[tactic(auto, using(crate::proofs::StatementLemmas::shapes))]
fn push_values<'a>(all: &mut Vec<&'a Operand>, statement: &'a Stmt) -> Result<(), AllocError>
    ensures { OnOk result (map (λ value. value.now) all.new.items ≡
        map (λ value. value.now) all.old.items ++ values_at (shape_of statement.now.form)) }
{
    match &statement.form {
        Form::Put { values, .. } => push_operands(all, values.as_slice()),
        Form::Filt { .. }
        | Form::If { .. }
        | Form::Pick { .. }
        | Form::Do(_)
        | Form::Write(_)
        | Form::Exit { .. } => Ok(()),
    }
}

fn may_be(text: &[u8], form: &OperandForm) -> bool
    ensures { result ≡ may_be text.now form.now }
{
    match form {
        OperandForm::Literal(other) => are_same(text, other.bytes()),
        OperandForm::Word(_) => false,
        OperandForm::Var(_) => true,
    }
}

/// Whether one of the values may be this text: it is the text, or a variable.
pub fn may_be_set(text: &[u8], values: &[&Operand]) -> bool
    ensures { result ≡ may_be_set text.now (map (λ value. value.now) values.now) }
{
    for value in values {
        if may_be(text, &value.form) {
            return true;
        }
    }
    false
}
