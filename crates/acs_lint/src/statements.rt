// The statements of a routine, those inside others too.
ghost use Rattle.std.specs.Prelude.{◌≡◌, ◌++◌, ◌∷◌, [], IfOk, OnOk, flat_map, map};
ghost use Rattle.acs_lint.specs.Statements.{statements_in, statements_of};
ghost use Rattle.acs_lint.specs.Inner.Parts.{inside_when, statements_in_other};

use acs_tree::{Form, Routine, Stmt, When};
use desk_common::Boxed;
use std::alloc::{AllocError, Global};

/// The statements of a routine, in the order of its text.
pub fn all_statements(alloc: Global, routine: &Routine) -> Result<Vec<&Stmt>, AllocError>
    ensures { IfOk result (λ all. map (λ statement. statement.now) all.items ≡ statements_of routine.now) }
{
    let mut all = Vec::new(alloc);
    push_block(&mut all, routine.body.as_slice())?;
    Ok(all)
}

#[cycle(walk)]
#[tactic(auto, using(crate::proofs::StatementLemmas::form_steps))]
fn push_statement<'a>(all: &mut Vec<&'a Stmt>, current: &'a Stmt) -> Result<(), AllocError>
    ensures { OnOk result (map (λ statement. statement.now) all.new.items ≡
        map (λ statement. statement.now) all.old.items ++ statements_in current.now) }
{
    push_one(all, current)?;
    match &current.form {
        Form::If { yes, otherwise, .. } => {
            push_statement(all, yes.get())?;
            push_other(all, otherwise)
        }
        Form::Pick {
            whens,
            otherwise,
            ..
        } => {
            push_whens(all, whens.as_slice())?;
            push_other(all, otherwise)
        }
        Form::Do(block) => push_block(all, block.as_slice()),
        Form::Filt { .. } | Form::Put { .. } | Form::Write(_) | Form::Exit { .. } => Ok(()),
    }
}

fn push_one<'a>(all: &mut Vec<&'a Stmt>, current: &'a Stmt) -> Result<(), AllocError>
    ensures { OnOk result (map (λ statement. statement.now) all.new.items ≡
        map (λ statement. statement.now) all.old.items ++ current.now ∷ []) }
{
    match all.push(current) {
        Ok(()) => Ok(()),
        Err(_) => Err(AllocError),
    }
}

// What is done otherwise, if anything.
#[cycle(walk)]
fn push_other<'a>(
    all: &mut Vec<&'a Stmt>,
    otherwise: &'a Option<Boxed<Stmt>>,
) -> Result<(), AllocError>
    ensures { OnOk result (map (λ statement. statement.now) all.new.items ≡
        map (λ statement. statement.now) all.old.items ++ statements_in_other otherwise.now) }
{
    match otherwise {
        None => Ok(()),
        Some(inner) => push_statement(all, inner.get()),
    }
}

#[cycle(walk)]
fn push_block<'a>(all: &mut Vec<&'a Stmt>, block: &'a [Stmt]) -> Result<(), AllocError>
    ensures { OnOk result (map (λ statement. statement.now) all.new.items ≡
        map (λ statement. statement.now) all.old.items ++ flat_map statements_in block.now) }
{
    'statements: for inner in block {
        push_statement(all, inner)?;
    }
    Ok(())
}

#[cycle(walk)]
fn push_whens<'a>(all: &mut Vec<&'a Stmt>, whens: &'a [When]) -> Result<(), AllocError>
    ensures { OnOk result (map (λ statement. statement.now) all.new.items ≡
        map (λ statement. statement.now) all.old.items ++ flat_map inside_when whens.now) }
{
    'clauses: for arm in whens {
        push_statement(all, arm.body.get())?;
    }
    Ok(())
}
