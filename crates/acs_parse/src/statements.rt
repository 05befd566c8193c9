// Readers of statements and blocks. Each is passed how many constructs are open where it begins, and
// a reader of what stands behind a word of a statement, how many are open inside it.
ghost use Rattle.std.specs.Prelude.{◌∷◌, [], ℕ, true, false};
ghost use Rattle.acs_parse.specs.declared.list_kind.ListKind.TheVariants as list;
ghost use Rattle.acs_parse.specs.declared.want.Want.TheVariants as want;
ghost use Rattle.acs_symbol.specs.declared.symbol.WordKind.TheVariants as word;
ghost use Rattle.acs_parse.specs.Grammar.{limited, IsStmt, IsAlternative, IsChoice, IsBlock};
ghost use Rattle.acs_parse.specs.Inner.Parts.{form_of_parts, test_of_parts};
ghost use Rattle.acs_parse.specs.Inner.Table.{Keep, Lower, To, One, ABlock, AnItem, AStatement, OrAlternative, AChoice};
ghost use Rattle.acs_parse.specs.Inner.Table.{AWhen, MoreWhens, ACondition, AnOperand, MoreOperands, Back};
ghost use Rattle.acs_parse.specs.Inner.Reads.{Reads, Parses, IsInside, AreWhens, IsTest, IsOneMore, IsItemMore};
ghost use Rattle.acs_parse.specs.Inner.Reads.{AreArms, test_parts};

use crate::building::{stmt_of, with_boxed, with_when_parts};
use crate::conditions::cond_before;
use crate::fault::Fault;
use crate::list_kind::ListKind;
use crate::lists::{boxed_variable, filter_list, operands};
use crate::parts::{FormParts, TestParts, WhenParts};
use crate::plain::{boxed_plain, with_plain};
use crate::tokens::{begins, expect, nests, opened, place, skip};
use crate::want::Want;
use acs_symbol::{Rest, Symbol, WordKind};
use acs_tree::{Block, Ref, Stmt, Whens, with_stmt};
use desk_common::Boxed;
use std::alloc::Global;

/// A statement.
#[cycle(statement)]
#[tactic(auto, using(crate::proofs::StatementLemmas::statement_steps))]
pub fn statement(
    alloc: Global,
    total: u32,
    depth: u32,
    rest: &mut Rest<'_>,
) -> Result<Boxed<Stmt>, Fault>
    ensures { Parses (λ found. IsStmt total limited depth rest.old found rest.new)
        (AStatement ∷ []) depth rest.old result }
{
    let at = place(total, rest);
    match rest.split_first() {
        None => Err(Fault::Ended),
        Some((Symbol::Word(WordKind::If, _), behind)) => {
            let inner = opened(depth, rest)?;
            *rest = behind;
            let parts = conditional(alloc, total, inner, rest)?;
            Ok(stmt_of(alloc, at, parts)?)
        }
        Some((Symbol::Word(WordKind::Select, _), behind)) => {
            let inner = opened(depth, rest)?;
            *rest = behind;
            let parts = selection(alloc, total, inner, rest)?;
            Ok(stmt_of(alloc, at, parts)?)
        }
        Some((Symbol::Word(WordKind::Do, _), behind)) => {
            let inner = opened(depth, rest)?;
            *rest = behind;
            let parts = group(alloc, total, inner, rest)?;
            Ok(stmt_of(alloc, at, parts)?)
        }
        Some((Symbol::Word(WordKind::Set, _), _)) => {
            let found = boxed_plain(alloc, total, rest)?;
            Ok(found)
        }
        Some((Symbol::Word(WordKind::Write, _), _)) => {
            let found = boxed_plain(alloc, total, rest)?;
            Ok(found)
        }
        Some((Symbol::Word(WordKind::Exit, _), _)) => {
            let found = boxed_plain(alloc, total, rest)?;
            Ok(found)
        }
        Some(_) => Err(Fault::Unexpected(rest.len())),
    }
}

/// What stands behind IF.
#[cycle(statement)]
#[tactic(auto, using(crate::proofs::StatementLemmas::if_at, crate::proofs::StatementLemmas::if_test_fails, crate::proofs::StatementLemmas::if_arms_fail))]
fn conditional(
    alloc: Global,
    total: u32,
    depth: u32,
    rest: &mut Rest<'_>,
) -> Result<FormParts, Fault>
    ensures { Parses (λ parts. IsInside total word.If depth rest.old (form_of_parts parts) rest.new)
        (ACondition ∷ One want.Then (To depth) ∷ AStatement ∷ OrAlternative want.Else ∷ Back ∷ [])
        depth rest.old result }
{
    let cond = cond_before(alloc, total, depth, Want::Then, rest)?;
    let (yes, otherwise) = arms(alloc, total, depth, rest)?;
    Ok(FormParts::If {
        cond,
        yes,
        otherwise,
    })
}

/// The statements of an IF: what it does where the condition holds, and what else.
#[cycle(statement)]
#[tactic(auto, using(crate::proofs::StatementLemmas::arms_at, crate::proofs::StatementLemmas::arms_yes_fails, crate::proofs::StatementLemmas::arms_no_fails))]
fn arms(
    alloc: Global,
    total: u32,
    depth: u32,
    rest: &mut Rest<'_>,
) -> Result<(Boxed<Stmt>, Option<Boxed<Stmt>>), Fault>
    ensures { Parses (λ x. AreArms total depth rest.old x.0 x.1 rest.new)
        (AStatement ∷ OrAlternative want.Else ∷ []) depth rest.old result }
{
    let yes = statement(alloc, total, depth, rest)?;
    let otherwise = alternative(alloc, total, depth, Want::Else, rest)?;
    Ok((yes, otherwise))
}

/// The statement of an ELSE or an OTHERWISE, if there is one.
#[cycle(statement)]
#[tactic(auto, using(crate::proofs::StatementLemmas::alternative_none, crate::proofs::StatementLemmas::alternative_some, crate::proofs::StatementLemmas::alternative_fails))]
fn alternative(
    alloc: Global,
    total: u32,
    depth: u32,
    want: Want,
    rest: &mut Rest<'_>,
) -> Result<Option<Boxed<Stmt>>, Fault>
    ensures { Parses (λ found. IsAlternative total limited want depth rest.old found rest.new)
        (OrAlternative want ∷ []) depth rest.old result }
{
    if !skip(want, rest) {
        return Ok(None);
    }
    let found = statement(alloc, total, depth, rest)?;
    Ok(Some(found))
}

/// What stands behind DO.
#[cycle(statement)]
#[tactic(auto, using(crate::proofs::StatementLemmas::do_at, crate::proofs::StatementLemmas::do_block_fails))]
fn group(alloc: Global, total: u32, depth: u32, rest: &mut Rest<'_>) -> Result<FormParts, Fault>
    ensures { Parses (λ parts. IsInside total word.Do depth rest.old (form_of_parts parts) rest.new)
        (ABlock false ∷ Back ∷ []) depth rest.old result }
{
    let body = block(alloc, total, depth, rest)?;
    Ok(FormParts::Do(body))
}

/// What stands behind SELECT.
#[cycle(statement)]
#[tactic(auto, using(crate::proofs::SelectLemmas::selection_steps))]
fn selection(alloc: Global, total: u32, depth: u32, rest: &mut Rest<'_>) -> Result<FormParts, Fault>
    ensures { Parses (λ parts. IsInside total word.Select depth rest.old (form_of_parts parts) rest.new)
        (AChoice ∷ OrAlternative want.Otherwise ∷ One want.End Lower ∷ []) depth rest.old result }
{
    let (subject, whens) = choice(alloc, total, depth, rest)?;
    let otherwise = alternative(alloc, total, depth, Want::Otherwise, rest)?;
    expect(Want::End, rest)?;
    Ok(FormParts::Pick {
        subject,
        whens,
        otherwise,
    })
}

/// What a SELECT compares, if it compares something, and its WHENs.
#[cycle(statement)]
#[tactic(auto, using(crate::proofs::SelectLemmas::choice_steps))]
fn choice(
    alloc: Global,
    total: u32,
    depth: u32,
    rest: &mut Rest<'_>,
) -> Result<(Option<Boxed<Ref>>, Whens), Fault>
    ensures { Parses (λ x. IsChoice total limited depth rest.old x.0 x.1 rest.new)
        (AChoice ∷ []) depth rest.old result }
{
    match rest.split_first() {
        None => Err(Fault::Ended),
        Some((Symbol::Open, behind)) => {
            *rest = behind;
            let subject = boxed_variable(alloc, total, rest)?;
            expect(Want::Close, rest)?;
            let whens = when_clauses(alloc, total, depth, true, rest)?;
            Ok((Some(subject), whens))
        }
        Some((Symbol::Word(WordKind::When, _), _)) => {
            let whens = when_clauses(alloc, total, depth, false, rest)?;
            Ok((None, whens))
        }
        Some(_) => Err(Fault::Unexpected(rest.len())),
    }
}

/// The WHENs of a SELECT, at least one.
#[cycle(statement)]
#[tactic(auto, using(crate::proofs::SelectLemmas::when_clauses_steps))]
fn when_clauses(
    alloc: Global,
    total: u32,
    depth: u32,
    has_subject: bool,
    rest: &mut Rest<'_>,
) -> Result<Whens, Fault>
    ensures { Parses (λ found. AreWhens total has_subject depth rest.old found rest.new)
        (AWhen has_subject ∷ MoreWhens has_subject ∷ []) depth rest.old result }
{
    let mut found = when(alloc, total, depth, has_subject, Whens::new(alloc), rest)?;
    'whens: while begins(Want::When, rest) {
        found = when(alloc, total, depth, has_subject, found, rest)?;
    }
    Ok(found)
}

/// The WHENs found so far, and one more behind them.
#[cycle(statement)]
#[tactic(auto, using(crate::proofs::SelectLemmas::one_more_of, crate::proofs::SelectLemmas::one_more_fails))]
fn when(
    alloc: Global,
    total: u32,
    depth: u32,
    has_subject: bool,
    found: Whens,
    rest: &mut Rest<'_>,
) -> Result<Whens, Fault>
    ensures { Parses (λ longer. IsOneMore total has_subject depth rest.old found longer rest.new)
        (AWhen has_subject ∷ []) depth rest.old result }
{
    if has_subject {
        let longer = when_value(alloc, total, depth, found, rest)?;
        Ok(longer)
    } else {
        let longer = when_condition(alloc, total, depth, found, rest)?;
        Ok(longer)
    }
}

/// The same where the SELECT compares a variable.
#[cycle(statement)]
#[tactic(auto, using(crate::proofs::SelectLemmas::when_value_steps))]
fn when_value(
    alloc: Global,
    total: u32,
    depth: u32,
    found: Whens,
    rest: &mut Rest<'_>,
) -> Result<Whens, Fault>
    ensures { Parses (λ longer. IsOneMore total true depth rest.old found longer rest.new)
        (AWhen true ∷ []) depth rest.old result }
{
    let at = place(total, rest);
    expect(Want::When, rest)?;
    let test = items_test(alloc, total, rest)?;
    let body = statement(alloc, total, depth, rest)?;
    Ok(with_when_parts(found, WhenParts { at, test, body })?)
}

/// The same where it compares none.
#[cycle(statement)]
#[tactic(auto, using(crate::proofs::SelectLemmas::when_condition_steps))]
fn when_condition(
    alloc: Global,
    total: u32,
    depth: u32,
    found: Whens,
    rest: &mut Rest<'_>,
) -> Result<Whens, Fault>
    ensures { Parses (λ longer. IsOneMore total false depth rest.old found longer rest.new)
        (AWhen false ∷ []) depth rest.old result }
{
    let at = place(total, rest);
    expect(Want::When, rest)?;
    let test = condition_test(alloc, total, depth, rest)?;
    let body = statement(alloc, total, depth, rest)?;
    Ok(with_when_parts(found, WhenParts { at, test, body })?)
}

/// Statements up to their END.
#[cycle(statement)]
#[tactic(auto, using(crate::proofs::StatementLemmas::block_first, crate::proofs::StatementLemmas::block_over))]
fn block(alloc: Global, total: u32, depth: u32, rest: &mut Rest<'_>) -> Result<Block, Fault>
    ensures { Parses (λ found. IsBlock total limited false depth rest.old found rest.new)
        (ABlock false ∷ []) depth rest.old result }
{
    let mut found = Block::new(alloc);
    'items: while !skip(Want::End, rest) {
        found = inner_item(alloc, total, depth, found, rest)?;
    }
    Ok(found)
}

/// The statements found so far, and one more behind them.
#[cycle(statement)]
#[tactic(auto, using(crate::proofs::StatementLemmas::inner_item_steps))]
fn inner_item(
    alloc: Global,
    total: u32,
    depth: u32,
    found: Block,
    rest: &mut Rest<'_>,
) -> Result<Block, Fault>
    ensures { Parses (λ longer. IsItemMore total false depth rest.old found longer rest.new)
        (AnItem false ∷ []) depth rest.old result }
{
    if nests(rest) {
        let next = statement(alloc, total, depth, rest)?;
        Ok(with_boxed(found, next)?)
    } else {
        let longer = with_plain(alloc, total, found, rest)?;
        Ok(longer)
    }
}

/// Statements and filter lists up to the END of the routine.
#[tactic(auto, using(crate::proofs::StatementLemmas::block_first, crate::proofs::StatementLemmas::block_over))]
pub fn body(alloc: Global, total: u32, rest: &mut Rest<'_>) -> Result<Block, Fault>
    ensures { Parses (λ found. IsBlock total limited true 0 rest.old found rest.new)
        (ABlock true ∷ []) 0 rest.old result }
{
    let mut found = Block::new(alloc);
    'items: while !skip(Want::End, rest) {
        found = item(alloc, total, found, rest)?;
    }
    Ok(found)
}

/// The statements and filter lists found so far, and one more behind them.
#[tactic(auto, using(crate::proofs::StatementLemmas::item_steps))]
fn item(alloc: Global, total: u32, found: Block, rest: &mut Rest<'_>) -> Result<Block, Fault>
    ensures { Parses (λ longer. IsItemMore total true 0 rest.old found longer rest.new)
        (AnItem true ∷ []) 0 rest.old result }
{
    if begins(Want::FiltList, rest) {
        let next = filter_list(alloc, total, rest)?;
        Ok(with_stmt(found, next)?)
    } else if nests(rest) {
        let next = statement(alloc, total, 0, rest)?;
        Ok(with_boxed(found, next)?)
    } else {
        let longer = with_plain(alloc, total, found, rest)?;
        Ok(longer)
    }
}

/// Items in parentheses.
#[tactic(auto, using(crate::proofs::SelectLemmas::items_test_steps))]
fn items_test(alloc: Global, total: u32, rest: &mut Rest<'_>) -> Result<TestParts, Fault>
    ensures { Reads (λ test. (n : ℕ) → IsTest total true n rest.old (test_of_parts test) rest.new)
        (One want.Open Keep ∷ AnOperand list.Items ∷ MoreOperands list.Items ∷ One want.Close Keep ∷ [])
        rest.old result }
{
    expect(Want::Open, rest)?;
    let items = operands(alloc, total, ListKind::Items, rest)?;
    expect(Want::Close, rest)?;
    Ok(TestParts::Any(items))
}

/// A condition in parentheses.
#[tactic(auto, using(crate::proofs::SelectLemmas::holds_at, crate::proofs::SelectLemmas::holds_open_fails, crate::proofs::SelectLemmas::holds_cond_fails))]
fn condition_test(
    alloc: Global,
    total: u32,
    depth: u32,
    rest: &mut Rest<'_>,
) -> Result<TestParts, Fault>
    ensures { Parses (λ test. IsTest total false depth rest.old (test_of_parts test) rest.new)
        (test_parts false depth) depth rest.old result }
{
    expect(Want::Open, rest)?;
    let cond = cond_before(alloc, total, depth, Want::Close, rest)?;
    Ok(TestParts::Holds(cond))
}
