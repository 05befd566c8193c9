// Readers of variables, operands and lists. Each is passed the tokens that are left, and moves on
// past what it reads.
ghost use Rattle.std.specs.Prelude.{◌≡◌, ◌∷◌, [], true, IfOk};
ghost use Rattle.acs_parse.specs.declared.want.Want.TheVariants as want;
ghost use Rattle.acs_parse.specs.Grammar.{starts, IsIndex, IsRef, IsOperand, IsOperands, IsExclude, IsLists, IsFilter};
ghost use Rattle.acs_parse.specs.Grammar.{IsCode};
ghost use Rattle.acs_parse.specs.Inner.Table.{AnOperand, MoreOperands, ARef, OrIndex, OrCode, Lists, OrExclude, AnItem};
ghost use Rattle.acs_parse.specs.Inner.Table.{entries};
ghost use Rattle.acs_parse.specs.Inner.Reads.{Reads, IsEntries};

use crate::fault::Fault;
use crate::list_kind::ListKind;
use crate::tokens::{expect, further, list_name, number, place, skip, word};
use crate::want::Want;
use acs_symbol::{Rest, Symbol, WordKind};
use acs_tree::{Form, Ident, Operand, OperandForm, Operands, Ref, Stmt, with_operand};
use desk_common::Boxed;
use std::alloc::{AllocError, Global};

/// A variable and its index, in a box.
#[inline(never)]
pub fn boxed_variable(alloc: Global, total: u32, rest: &mut Rest<'_>) -> Result<Boxed<Ref>, Fault>
    ensures { Reads (λ found. IsRef total rest.old found rest.new) (ARef ∷ []) rest.old result }
{
    // The check has to see the types inside a variable where one is moved.
    let _seen: Option<Ident> = None;
    let found = variable(alloc, total, rest)?;
    Ok(Boxed::new(alloc, found)?)
}

/// A variable and its index.
#[tactic(auto, using(crate::proofs::OperandLemmas::ref_at, crate::proofs::OperandLemmas::ref_index_fails))]
pub fn variable(alloc: Global, total: u32, rest: &mut Rest<'_>) -> Result<Ref, Fault>
    ensures { Reads (λ found. IsRef total rest.old found rest.new) (ARef ∷ []) rest.old result }
{
    let at = place(total, rest);
    match rest.split_first() {
        None => Err(Fault::Ended),
        Some((Symbol::Variable(name), behind)) => {
            *rest = behind;
            let (index, index_at) = index(alloc, total, rest)?;
            Ok(Ref {
                at,
                name: name.ident(),
                index,
                index_at,
            })
        }
        Some(_) => Err(Fault::Unexpected(rest.len())),
    }
}

#[tactic(auto, using(crate::proofs::OperandLemmas::index_steps))]
fn index(
    alloc: Global,
    total: u32,
    rest: &mut Rest<'_>,
) -> Result<(Option<Boxed<Ident>>, u32), Fault>
    ensures { Reads (λ x. IsIndex total rest.old x.0 x.1 rest.new) (OrIndex ∷ []) rest.old result }
{
    if !skip(Want::Open, rest) {
        return Ok((None, 0));
    }
    let at = place(total, rest);
    let text = number(rest)?;
    expect(Want::Close, rest)?;
    let index = Boxed::new(alloc, text)?;
    Ok((Some(index), at))
}

/// An operand of such a list.
#[tactic(auto, using(crate::proofs::OperandLemmas::operand_steps))]
pub fn operand(
    alloc: Global,
    total: u32,
    kind: ListKind,
    rest: &mut Rest<'_>,
) -> Result<Operand, Fault>
    ensures { Reads (λ found. IsOperand total kind rest.old found rest.new) (AnOperand kind ∷ []) rest.old result }
{
    let at = place(total, rest);
    match rest.split_first() {
        None => Err(Fault::Ended),
        Some((Symbol::Literal(text), behind)) => {
            *rest = behind;
            let form = OperandForm::Literal(text.lit());
            Ok(Operand { at, form })
        }
        Some((Symbol::Word(_, text), behind)) if kind.takes_words() => {
            *rest = behind;
            let form = OperandForm::Word(text.ident());
            Ok(Operand { at, form })
        }
        Some((Symbol::Variable(_), _)) if kind.takes_variables() => {
            let form = OperandForm::Var(variable(alloc, total, rest)?);
            Ok(Operand { at, form })
        }
        Some(_) => Err(Fault::Unexpected(rest.len())),
    }
}

// An empty list. Most lists have one operand, so there is room for that one and no more.
fn room_for_one(alloc: Global) -> Result<Operands, AllocError>
    ensures { IfOk result (λ list. list ≡ []) }
{
    let room = Vec::with_capacity(alloc, 1)?;
    Ok(Operands::from_vec(room))
}

/// A list of such operands, at least one.
#[tactic(auto, using(crate::proofs::OperandLemmas::operands_steps))]
pub fn operands(
    alloc: Global,
    total: u32,
    kind: ListKind,
    rest: &mut Rest<'_>,
) -> Result<Operands, Fault>
    ensures { Reads (λ list. IsOperands total kind rest.old list rest.new)
        (AnOperand kind ∷ MoreOperands kind ∷ []) rest.old result }
{
    // The check has to see the types inside the list's items.
    let _seen: Option<(OperandForm, Ref, Ident)> = None;
    let first = operand(alloc, total, kind, rest)?;
    let mut list = with_operand(room_for_one(alloc)?, first)?;
    'more: while let Some(behind) = further(kind, rest) {
        *rest = behind;
        let next = operand(alloc, total, kind, rest)?;
        list = with_operand(list, next)?;
    }
    Ok(list)
}

/// Entries in parentheses.
#[tactic(auto, using(crate::proofs::OperandLemmas::entries_steps))]
fn entries(alloc: Global, total: u32, rest: &mut Rest<'_>) -> Result<Operands, Fault>
    ensures { Reads (λ list. IsEntries total rest.old list rest.new) entries rest.old result }
{
    expect(Want::Open, rest)?;
    let list = operands(alloc, total, ListKind::Entries, rest)?;
    expect(Want::Close, rest)?;
    Ok(list)
}

#[tactic(auto, using(crate::proofs::OperandLemmas::exclude_none, crate::proofs::OperandLemmas::exclude_some, crate::proofs::OperandLemmas::exclude_fails))]
fn exclude(alloc: Global, total: u32, rest: &mut Rest<'_>) -> Result<Operands, Fault>
    ensures { Reads (λ list. IsExclude total rest.old list rest.new) (OrExclude ∷ []) rest.old result }
{
    if !skip(Want::Exclude, rest) {
        return Ok(Operands::new(alloc));
    }
    let list = entries(alloc, total, rest)?;
    Ok(list)
}

/// The entries of INCLUDE and those of EXCLUDE.
#[tactic(auto, using(crate::proofs::OperandLemmas::lists_steps))]
fn lists(alloc: Global, total: u32, rest: &mut Rest<'_>) -> Result<(Operands, Operands), Fault>
    ensures { Reads (λ x. IsLists total rest.old x.0 x.1 rest.new) (Lists ∷ []) rest.old result }
{
    match rest.split_first() {
        None => Err(Fault::Ended),
        Some((Symbol::Word(WordKind::Include, _), behind)) => {
            *rest = behind;
            let include = entries(alloc, total, rest)?;
            let exclude = exclude(alloc, total, rest)?;
            Ok((include, exclude))
        }
        Some((Symbol::Word(WordKind::Exclude, _), behind)) => {
            *rest = behind;
            let exclude = entries(alloc, total, rest)?;
            Ok((Operands::new(alloc), exclude))
        }
        Some(_) => Err(Fault::Unexpected(rest.len())),
    }
}

/// A filter list, where its word stands.
#[tactic(auto, using(crate::proofs::OperandLemmas::filter_list_steps))]
#[inline(never)]
pub fn filter_list(alloc: Global, total: u32, rest: &mut Rest<'_>) -> Result<Stmt, Fault>
    requires { starts want.FiltList rest.old ≡ true }
    ensures { Reads (λ found. IsFilter total rest.old found rest.new) (AnItem true ∷ []) rest.old result }
{
    let at = place(total, rest);
    expect(Want::FiltList, rest)?;
    let name_at = place(total, rest);
    let name = list_name(rest)?;
    let (include, exclude) = lists(alloc, total, rest)?;
    let form = Form::Filt {
        name,
        name_at,
        include,
        exclude,
    };
    Ok(Stmt { at, form })
}

/// The code of an EXIT, if it has one.
#[tactic(auto, using(crate::proofs::OperandLemmas::exit_code_steps))]
pub fn exit_code(total: u32, rest: &mut Rest<'_>) -> Result<Option<Operand>, Fault>
    ensures { Reads (λ found. IsCode total rest.old found rest.new) (OrCode ∷ []) rest.old result }
{
    if !skip(Want::Code, rest) {
        return Ok(None);
    }
    expect(Want::Open, rest)?;
    // The check has to see the types inside an operand where one is moved.
    let _seen: Option<Ref> = None;
    let at = place(total, rest);
    let text = word(rest)?;
    expect(Want::Close, rest)?;
    let form = OperandForm::Word(text);
    Ok(Some(Operand { at, form }))
}
