// The code of statements.
ghost use Rattle.std.specs.Prelude.{◌≡◌, ◌∷◌, [], List, length, map, OnOk};
ghost use Rattle.std.specs.Option.{option_map};
ghost use Rattle.acs_tree.specs.Conditions.{holds};
ghost use Rattle.acs_tree.specs.Meaning.{choice, first_of, in_turn, meaning, perhaps};
ghost use Rattle.acs_tree.specs.Outcome.{Action};
ghost use Rattle.acs_code.specs.Inner.Arms.{arm_of};
ghost use Rattle.acs_code.specs.Compiled.{filters_of};
ghost use Rattle.acs_code.specs.Inner.Upward.{Does};
ghost use Rattle.acs_code.specs.declared.instr.Instr.{Instr};

use crate::conditions::{condition, when};
use crate::fork::Fork;
use crate::jumps::{exit, jump};
use crate::lists::Lists;
use crate::sets::set;
use crate::upward::Upward;
use crate::writes::write;
use acs_tree::{Cond, Form, Kind, Ref, Stmt, When};
use desk_common::Boxed;
use std::alloc::{AllocError, Global};

#[cycle(statements)]
fn statement(
    alloc: Global,
    code: &mut Upward,
    kind: Kind,
    lists: &Lists<'_>,
    stmt: &Stmt,
) -> Result<(), AllocError>
    ensures { OnOk result (Does kind (filters_of lists.now) (meaning kind lists.now stmt.now) code.old code.new) }
{
    match &stmt.form {
        Form::Filt { .. } => Ok(()),
        Form::Put { target, values } => set(code, kind, target, values.as_slice()),
        Form::If {
            cond,
            yes,
            otherwise,
        } => {
            let end = code.place();
            alternative(alloc, code, kind, lists, otherwise)?;
            conditional(alloc, code, kind, lists, yes.get(), cond.get(), end)
        }
        Form::Pick {
            subject,
            whens,
            otherwise,
        } => {
            let end = code.place();
            alternative(alloc, code, kind, lists, otherwise)?;
            when_clauses(alloc, code, kind, lists, subject, whens.as_slice(), end)
        }
        Form::Do(body) => block(alloc, code, kind, lists, body.as_slice()),
        Form::Write(parts) => write(alloc, code, parts.as_slice()),
        Form::Exit { code: number } => exit(code, number),
    }
}

/// Statements in their order.
#[cycle(statements)]
pub fn block(
    alloc: Global,
    code: &mut Upward,
    kind: Kind,
    lists: &Lists<'_>,
    body: &[Stmt],
) -> Result<(), AllocError>
    ensures { OnOk result
        (Does kind (filters_of lists.now) (in_turn (map (meaning kind lists.now) body.now)) code.old code.new) }
{
    let mut left = body.len();
    while left > 0 {
        left -= 1;
        statement(alloc, code, kind, lists, &body[left])?;
    }
    Ok(())
}

// What is done otherwise, if anything.
#[cycle(statements)]
fn alternative(
    alloc: Global,
    code: &mut Upward,
    kind: Kind,
    lists: &Lists<'_>,
    otherwise: &Option<Boxed<Stmt>>,
) -> Result<(), AllocError>
    ensures { OnOk result (Does kind (filters_of lists.now)
        (perhaps (option_map (meaning kind lists.now) otherwise.now)) code.old code.new) }
{
    match otherwise {
        None => Ok(()),
        Some(stmt) => statement(alloc, code, kind, lists, stmt.get()),
    }
}

// A statement under a condition, in front of code that stands for what is done otherwise.
#[cycle(statements)]
fn conditional(
    alloc: Global,
    code: &mut Upward,
    kind: Kind,
    lists: &Lists<'_>,
    body: &Stmt,
    cond: &Cond,
    end: u64,
) -> Result<(), AllocError>
    ensures { OnOk result ((other : Action) (rest : List Instr) → end ≡ length rest →
        Does kind (filters_of lists.now) other rest code.old →
        Does kind (filters_of lists.now)
        (choice (holds lists.now cond.now) (meaning kind lists.now body.now) other) rest code.new) }
{
    let fails = code.place();
    jump(code, end)?;
    statement(alloc, code, kind, lists, body)?;
    let fork = Fork {
        holds: code.place(),
        fails,
    };
    condition(code, kind, lists, cond, fork)
}

// A WHEN, in front of code that stands for the later ones.
#[cycle(statements)]
fn when_clause(
    alloc: Global,
    code: &mut Upward,
    kind: Kind,
    lists: &Lists<'_>,
    subject: &Option<Ref>,
    arm: &When,
    behind: u64,
) -> Result<(), AllocError>
    ensures { OnOk result ((other : Action) (rest : List Instr) → behind ≡ length rest →
        Does kind (filters_of lists.now) other rest code.old →
        Does kind (filters_of lists.now)
        (first_of subject.now (arm_of kind lists.now arm.now ∷ []) other) rest code.new) }
{
    let fails = code.place();
    jump(code, behind)?;
    statement(alloc, code, kind, lists, arm.body.get())?;
    let fork = Fork {
        holds: code.place(),
        fails,
    };
    when(code, kind, lists, subject, &arm.test, fork)
}

// The WHENs of a SELECT, in front of the code of its OTHERWISE.
#[cycle(statements)]
fn when_clauses(
    alloc: Global,
    code: &mut Upward,
    kind: Kind,
    lists: &Lists<'_>,
    subject: &Option<Ref>,
    arms: &[When],
    end: u64,
) -> Result<(), AllocError>
    ensures { OnOk result ((other : Action) (rest : List Instr) → end ≡ length rest →
        Does kind (filters_of lists.now) other rest code.old →
        Does kind (filters_of lists.now)
        (first_of subject.now (map (arm_of kind lists.now) arms.now) other) rest code.new) }
{
    let mut left = arms.len();
    while left > 0 {
        left -= 1;
        when_clause(alloc, code, kind, lists, subject, &arms[left], end)?;
    }
    Ok(())
}
