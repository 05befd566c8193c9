// Statements, WHENs and conditions from their parts. These functions hold what is wide, which
// readers that call themselves must not hold while they do: LLVM is told not to inline them, and
// Rattle's own compiler, which can't be told, doesn't where the readers call them in several places.
ghost use Rattle.std.specs.Prelude.{◌≡◌, ◌∷◌, ◌++◌, [], IfOk};
ghost use Rattle.acs_parse.specs.Inner.Parts.{form_of_parts, test_of_parts, when_of_parts};

use crate::parts::{FormParts, TestParts, WhenParts};
use acs_tree::{Block, Cond, Form, Ref, Stmt, When, WhenTest, Whens, with_stmt, with_when};
use desk_common::Boxed;
use std::alloc::{AllocError, Global};

/// The statement whose first token is at this place.
#[inline(never)]
pub fn stmt_of(alloc: Global, at: u32, parts: FormParts) -> Result<Boxed<Stmt>, AllocError>
    ensures { IfOk result (λ stmt. stmt ≡ record { at = at; form = form_of_parts parts }) }
{
    match parts {
        FormParts::If {
            cond,
            yes,
            otherwise,
        } => conditional_of(alloc, at, cond, yes, otherwise),
        FormParts::Pick {
            subject,
            whens,
            otherwise,
        } => selection_of(alloc, at, subject, whens, otherwise),
        FormParts::Do(body) => boxed(alloc, at, Form::Do(body)),
    }
}

// Each form is made in a function of its own, which holds no other.

#[inline(never)]
fn conditional_of(
    alloc: Global,
    at: u32,
    cond: Boxed<Cond>,
    yes: Boxed<Stmt>,
    otherwise: Option<Boxed<Stmt>>,
) -> Result<Boxed<Stmt>, AllocError>
    ensures { IfOk result (λ stmt. stmt ≡ record { at = at; form = Form.If cond yes otherwise }) }
{
    let form = Form::If {
        cond,
        yes,
        otherwise,
    };
    boxed(alloc, at, form)
}

#[inline(never)]
fn selection_of(
    alloc: Global,
    at: u32,
    subject: Option<Boxed<Ref>>,
    whens: Whens,
    otherwise: Option<Boxed<Stmt>>,
) -> Result<Boxed<Stmt>, AllocError>
    ensures { IfOk result (λ stmt. stmt ≡ record { at = at; form = Form.Pick subject whens otherwise }) }
{
    let subject = unboxed(subject);
    let form = Form::Pick {
        subject,
        whens,
        otherwise,
    };
    boxed(alloc, at, form)
}

fn boxed(alloc: Global, at: u32, form: Form) -> Result<Boxed<Stmt>, AllocError>
    ensures { IfOk result (λ stmt. stmt ≡ record { at = at; form = form }) }
{
    Boxed::new(alloc, Stmt { at, form })
}

fn unboxed<T>(held: Option<Boxed<T>>) -> Option<T>
    ensures { result ≡ held }
{
    match held {
        None => None,
        Some(held) => Some(held.into_inner()),
    }
}

fn test_of(parts: TestParts) -> WhenTest
    ensures { result ≡ test_of_parts parts }
{
    match parts {
        TestParts::Any(items) => WhenTest::Any(items),
        TestParts::Holds(cond) => WhenTest::Holds(cond),
    }
}

/// The block with this statement at its end.
#[inline(never)]
pub fn with_boxed(block: Block, stmt: Boxed<Stmt>) -> Result<Block, AllocError>
    ensures { IfOk result (λ longer. longer ≡ block ++ stmt ∷ []) }
{
    with_stmt(block, stmt.into_inner())
}

/// The WHENs with this one at their end.
#[inline(never)]
pub fn with_when_parts(whens: Whens, parts: WhenParts) -> Result<Whens, AllocError>
    ensures { IfOk result (λ longer. longer ≡ whens ++ when_of_parts parts ∷ []) }
{
    let WhenParts { at, test, body } = parts;
    let test = test_of(test);
    with_when(whens, When { at, test, body })
}

/// Two conditions that AND joins.
#[inline(never)]
pub fn both(alloc: Global, left: Boxed<Cond>, right: Boxed<Cond>) -> Result<Boxed<Cond>, AllocError>
    ensures { IfOk result (λ cond. cond ≡ Cond.And left right) }
{
    Boxed::new(alloc, Cond::And(left, right))
}

/// Two conditions that OR joins.
#[inline(never)]
pub fn either(
    alloc: Global,
    left: Boxed<Cond>,
    right: Boxed<Cond>,
) -> Result<Boxed<Cond>, AllocError>
    ensures { IfOk result (λ cond. cond ≡ Cond.Or left right) }
{
    Boxed::new(alloc, Cond::Or(left, right))
}
