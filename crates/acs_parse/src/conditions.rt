// Readers of conditions. Each is passed how many constructs are open, and tells how many are open
// behind what it reads.
ghost use Rattle.std.specs.Prelude.{◌≡◌, ◌∷◌, [], ℕ, true};
ghost use Rattle.acs_parse.specs.declared.want.Want.TheVariants as want;
ghost use Rattle.acs_parse.specs.Grammar.{starts, limited, IsCond, IsConj, IsPrim};
ghost use Rattle.acs_parse.specs.Inner.Table.{To, One, ACondition, AConjunct, ATest};
ghost use Rattle.acs_parse.specs.Inner.Reads.{Reads, Parses, IsCondBefore};

use crate::building::{both, either};
use crate::fault::Fault;
use crate::list_kind::ListKind;
use crate::lists::{operand, variable};
use crate::tokens::{begins, closed, expect, opened, operator, place};
use crate::want::Want;
use acs_symbol::{Rest, Symbol};
use acs_tree::Cond;
use desk_common::Boxed;
use std::alloc::Global;

/// A condition, whose parts an OR joins.
#[cycle(cond)]
#[tactic(auto, using(crate::proofs::CondLemmas::cond_steps))]
fn cond(
    alloc: Global,
    total: u32,
    depth: u32,
    rest: &mut Rest<'_>,
) -> Result<(Boxed<Cond>, u32), Fault>
    ensures { Parses (λ x. IsCond total limited depth rest.old x.0 x.1 rest.new)
        (ACondition ∷ []) depth rest.old result }
{
    let (mut found, mut count) = conj(alloc, total, depth, rest)?;
    'ors: while begins(Want::Or, rest) {
        let inner = opened(count, rest)?;
        expect(Want::Or, rest)?;
        let (right, behind) = conj(alloc, total, inner, rest)?;
        found = either(alloc, found, right)?;
        count = behind;
    }
    Ok((found, count))
}

/// A condition and the token that is wanted behind it.
#[tactic(auto, using(crate::proofs::CondLemmas::cond_then, crate::proofs::CondLemmas::before_cond_fails, crate::proofs::CondLemmas::before_word_fails))]
pub fn cond_before(
    alloc: Global,
    total: u32,
    depth: u32,
    want: Want,
    rest: &mut Rest<'_>,
) -> Result<Boxed<Cond>, Fault>
    ensures { Parses (λ found. IsCondBefore total want depth rest.old found rest.new)
        (ACondition ∷ One want (To depth) ∷ []) depth rest.old result }
{
    let (found, _) = cond(alloc, total, depth, rest)?;
    expect(want, rest)?;
    Ok(found)
}

/// A part of a condition, whose parts an AND joins.
#[cycle(cond)]
#[tactic(auto, using(crate::proofs::CondLemmas::conj_steps))]
fn conj(
    alloc: Global,
    total: u32,
    depth: u32,
    rest: &mut Rest<'_>,
) -> Result<(Boxed<Cond>, u32), Fault>
    ensures { Parses (λ x. IsConj total limited depth rest.old x.0 x.1 rest.new)
        (AConjunct ∷ []) depth rest.old result }
{
    let (mut found, mut count) = prim(alloc, total, depth, rest)?;
    'ands: while begins(Want::And, rest) {
        let inner = opened(count, rest)?;
        expect(Want::And, rest)?;
        let (right, behind) = prim(alloc, total, inner, rest)?;
        found = both(alloc, found, right)?;
        count = behind;
    }
    Ok((found, count))
}

/// One comparison, or a condition in parentheses.
#[cycle(cond)]
#[tactic(auto, using(crate::proofs::CondLemmas::prim_steps))]
fn prim(
    alloc: Global,
    total: u32,
    depth: u32,
    rest: &mut Rest<'_>,
) -> Result<(Boxed<Cond>, u32), Fault>
    ensures { Parses (λ x. IsPrim total limited depth rest.old x.0 x.1 rest.new) (ATest ∷ []) depth rest.old result }
{
    match rest.split_first() {
        None => Err(Fault::Ended),
        Some((Symbol::Variable(_), _)) => {
            let found = comparison(alloc, total, rest)?;
            Ok((found, depth))
        }
        Some((Symbol::Open, behind)) => {
            let inner = opened(depth, rest)?;
            *rest = behind;
            let (found, count) = cond(alloc, total, inner, rest)?;
            expect(Want::Close, rest)?;
            Ok((found, closed(count)))
        }
        Some(_) => Err(Fault::Unexpected(rest.len())),
    }
}

/// A comparison, where its variable stands.
#[tactic(auto, using(crate::proofs::CondLemmas::comparison_steps))]
#[inline(never)]
fn comparison(alloc: Global, total: u32, rest: &mut Rest<'_>) -> Result<Boxed<Cond>, Fault>
    requires { starts want.Variable rest.old ≡ true }
    ensures { Reads (λ found. (n : ℕ) → IsPrim total limited n rest.old found n rest.new) (ATest ∷ []) rest.old result }
{
    let left = variable(alloc, total, rest)?;
    let op_at = place(total, rest);
    let op = operator(rest)?;
    let right = operand(alloc, total, ListKind::Items, rest)?;
    let found = Cond::Test {
        left,
        op,
        op_at,
        right,
    };
    Ok(Boxed::new(alloc, found)?)
}
