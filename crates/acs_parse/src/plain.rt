// Readers of statements that have no others inside them: SET, WRITE and EXIT. They call no reader of a statement, so
// they may hold what is wide; their callers, which call themselves, don't: see building.rt.
ghost use Rattle.std.specs.Prelude.{◌≡◌, ◌∷◌, [], false};
ghost use Rattle.acs_parse.specs.declared.list_kind.ListKind.TheVariants as list;
ghost use Rattle.acs_parse.specs.declared.want.Want.TheVariants as want;
ghost use Rattle.acs_symbol.specs.declared.symbol.WordKind.TheVariants as word;
ghost use Rattle.acs_parse.specs.Inner.Table.{Keep, One, AStatement, AnOperand, MoreOperands, ARef, OrCode};
ghost use Rattle.acs_parse.specs.Inner.Reads.{Reads, IsPlain, IsPlainMore, IsBehindAt, nests};

use crate::fault::Fault;
use crate::list_kind::ListKind;
use crate::lists::{exit_code, operands, variable};
use crate::tokens::{expect, place};
use crate::want::Want;
use acs_symbol::{Rest, Symbol, WordKind};
use acs_tree::{Block, Form, Ident, OperandForm, Ref, Stmt, with_stmt};
use desk_common::Boxed;
use std::alloc::Global;

/// A statement with no other inside it, in a box.
#[inline(never)]
pub fn boxed_plain(alloc: Global, total: u32, rest: &mut Rest<'_>) -> Result<Boxed<Stmt>, Fault>
    requires { nests rest.old ≡ false }
    ensures { Reads (λ found. IsPlain total rest.old found rest.new) (AStatement ∷ []) rest.old result }
{
    let found = plain(alloc, total, rest)?;
    Ok(Boxed::new(alloc, found)?)
}

/// The block with such a statement at its end.
#[tactic(auto, using(crate::proofs::StatementLemmas::plain_more))]
#[inline(never)]
pub fn with_plain(
    alloc: Global,
    total: u32,
    block: Block,
    rest: &mut Rest<'_>,
) -> Result<Block, Fault>
    requires { nests rest.old ≡ false }
    ensures { Reads (λ longer. IsPlainMore total rest.old block longer rest.new) (AStatement ∷ []) rest.old result }
{
    let found = plain(alloc, total, rest)?;
    Ok(with_stmt(block, found)?)
}

/// A statement with no other inside it.
#[tactic(auto, using(crate::proofs::StatementLemmas::plain_steps))]
fn plain(alloc: Global, total: u32, rest: &mut Rest<'_>) -> Result<Stmt, Fault>
    requires { nests rest.old ≡ false }
    ensures { Reads (λ found. IsPlain total rest.old found rest.new) (AStatement ∷ []) rest.old result }
{
    let at = place(total, rest);
    match rest.split_first() {
        None => Err(Fault::Ended),
        Some((Symbol::Word(WordKind::Set, _), behind)) => {
            *rest = behind;
            assignment(alloc, total, at, rest)
        }
        Some((Symbol::Word(WordKind::Write, _), behind)) => {
            *rest = behind;
            written(alloc, total, at, rest)
        }
        Some((Symbol::Word(WordKind::Exit, _), behind)) => {
            *rest = behind;
            ending(total, at, rest)
        }
        Some(_) => Err(Fault::Unexpected(rest.len())),
    }
}

/// A SET whose word is at this place, by what stands behind the word.
#[tactic(auto, using(crate::proofs::StatementLemmas::assignment_steps))]
fn assignment(alloc: Global, total: u32, at: u32, rest: &mut Rest<'_>) -> Result<Stmt, Fault>
    ensures { Reads (λ found. IsBehindAt total word.Set at rest.old found rest.new)
        (ARef ∷ One want.Equal Keep ∷ AnOperand list.Values ∷ MoreOperands list.Values ∷ []) rest.old result }
{
    // The check has to see the types inside a variable where one is moved.
    let _seen: Option<Ident> = None;
    let target = variable(alloc, total, rest)?;
    expect(Want::Equal, rest)?;
    let values = operands(alloc, total, ListKind::Values, rest)?;
    let form = Form::Put { target, values };
    Ok(Stmt { at, form })
}

/// The same of a WRITE.
#[tactic(auto, using(crate::proofs::StatementLemmas::write_at))]
fn written(alloc: Global, total: u32, at: u32, rest: &mut Rest<'_>) -> Result<Stmt, Fault>
    ensures { Reads (λ found. IsBehindAt total word.Write at rest.old found rest.new)
        (AnOperand list.Parts ∷ MoreOperands list.Parts ∷ []) rest.old result }
{
    let parts = operands(alloc, total, ListKind::Parts, rest)?;
    let form = Form::Write(parts);
    Ok(Stmt { at, form })
}

/// The same of an EXIT.
#[tactic(auto, using(crate::proofs::StatementLemmas::exit_at))]
fn ending(total: u32, at: u32, rest: &mut Rest<'_>) -> Result<Stmt, Fault>
    ensures { Reads (λ found. IsBehindAt total word.Exit at rest.old found rest.new) (OrCode ∷ []) rest.old result }
{
    // The check has to see the types inside an operand where one is moved.
    let _seen: Option<(OperandForm, Ref)> = None;
    let code = exit_code(total, rest)?;
    let form = Form::Exit { code };
    Ok(Stmt { at, form })
}
