// Readers of one token each. Each is passed the tokens that are left, and moves on past what it
// reads.
ghost use Rattle.std.specs.Prelude.{◌≡◌, ◌∷◌, false, MatchOption};
ghost use Rattle.acs_symbol.specs.declared.symbol.Symbol.{Symbol};
ghost use Rattle.acs_symbol.specs.declared.symbol.Symbol.TheVariants.{Word};
ghost use Rattle.acs_symbol.specs.declared.symbol.WordKind.{WordKind};
ghost use Rattle.acs_symbol.specs.declared.symbol.WordKind.TheVariants as word;
ghost use Rattle.acs_parse.specs.declared.want.Want.TheVariants as want;
ghost use Rattle.acs_parse.specs.Grammar.{starts, place_in, back, goes_on, IsOperator, IsListName, IsHead};
ghost use Rattle.acs_parse.specs.Inner.Language.{Takes};
ghost use Rattle.acs_parse.specs.Inner.Reads.{ReadsOne, Opens, Skips, GoesOn, nesting, nests};

use crate::fault::Fault;
use crate::list_kind::ListKind;
use crate::want::Want;
use acs_symbol::{Rest, Symbol, WordKind};
use acs_tree::{Compare, Ident};

/// The most constructs that may be open at once (docs/manual/acs-language.md, Nesting).
pub const MAX_NESTING: u32 = 200;

/// The place of the first of these tokens, of so many in all.
pub fn place(total: u32, rest: &Rest<'_>) -> u32
    ensures { result ≡ place_in total rest.now }
{
    (total as usize).saturating_sub(rest.len()) as u32
}

/// One more opens at the first of these tokens, if it may.
pub fn opened(depth: u32, rest: &Rest<'_>) -> Result<u32, Fault>
    ensures { Opens depth rest.now result }
{
    if depth < MAX_NESTING {
        Ok(depth + 1)
    } else {
        Err(Fault::Deep(rest.len()))
    }
}

pub fn closed(depth: u32) -> u32
    ensures { result ≡ back depth }
{
    if depth == 0 { 0 } else { depth - 1 }
}

/// Moves past the token that is wanted.
pub fn expect(want: Want, rest: &mut Rest<'_>) -> Result<(), Fault>
    ensures { ReadsOne (λ _. Takes want rest.old rest.new) want rest.old result }
{
    match rest.split_first() {
        None => Err(Fault::Ended),
        Some((first, behind)) if want.fits(first) => {
            *rest = behind;
            Ok(())
        }
        Some(_) => Err(Fault::Unexpected(rest.len())),
    }
}

/// Moves past the token if it is the one that is wanted, and tells whether it was.
pub fn skip(want: Want, rest: &mut Rest<'_>) -> bool
    ensures { Skips want rest.old rest.new result }
{
    match rest.split_first() {
        Some((first, behind)) if want.fits(first) => {
            *rest = behind;
            true
        }
        _ => false,
    }
}

pub fn begins(want: Want, rest: &Rest<'_>) -> bool
    ensures { result ≡ starts want rest.now }
{
    rest.first().is_some_and(|first| want.fits(first))
}

/// Whether a statement begins that has others inside it.
pub fn nests(rest: &Rest<'_>) -> bool
    ensures { result ≡ nests rest.now }
{
    rest.first().is_some_and(|first| is_nesting(first))
}

fn is_nesting(symbol: &Symbol<'_>) -> bool
    ensures { result ≡ nesting symbol.now }
{
    match symbol {
        Symbol::Word(WordKind::If | WordKind::Select | WordKind::Do, _) => true,
        _ => false,
    }
}

pub fn number(rest: &mut Rest<'_>) -> Result<Ident, Fault>
    ensures { ReadsOne (λ text. rest.old ≡ Word word.Number text ∷ rest.new) want.Number rest.old result }
{
    match rest.split_first() {
        None => Err(Fault::Ended),
        Some((Symbol::Word(WordKind::Number, text), behind)) => {
            *rest = behind;
            Ok(text.ident())
        }
        Some(_) => Err(Fault::Unexpected(rest.len())),
    }
}

pub fn word(rest: &mut Rest<'_>) -> Result<Ident, Fault>
    ensures { ReadsOne (λ text. (kind : WordKind) × (rest.old ≡ Word kind text ∷ rest.new)) want.Word rest.old result }
{
    match rest.split_first() {
        None => Err(Fault::Ended),
        Some((Symbol::Word(_, text), behind)) => {
            *rest = behind;
            Ok(text.ident())
        }
        Some(_) => Err(Fault::Unexpected(rest.len())),
    }
}

/// The name of a filter list.
#[tactic(auto, using(crate::proofs::ShapeLemmas::named_word, crate::proofs::ShapeLemmas::named_variable))]
pub fn list_name(rest: &mut Rest<'_>) -> Result<Ident, Fault>
    ensures { ReadsOne (λ text. (t : Symbol) × IsListName t text × (rest.old ≡ t ∷ rest.new))
        want.Name rest.old result }
{
    match rest.split_first() {
        None => Err(Fault::Ended),
        Some((Symbol::Word(_, text), behind)) => {
            *rest = behind;
            Ok(text.ident())
        }
        Some((Symbol::Variable(text), behind)) => {
            *rest = behind;
            Ok(text.ident())
        }
        Some(_) => Err(Fault::Unexpected(rest.len())),
    }
}

/// The name at the head of a routine.
#[tactic(auto, using(crate::proofs::ShapeLemmas::headed_word, crate::proofs::ShapeLemmas::headed_variable, crate::proofs::ShapeLemmas::number_heads_nothing))]
pub fn head(rest: &mut Rest<'_>) -> Result<Ident, Fault>
    ensures { ReadsOne (λ text. (t : Symbol) × IsHead t text × (rest.old ≡ t ∷ rest.new)) want.Head rest.old result }
{
    if begins(Want::Number, rest) {
        return Err(Fault::Unexpected(rest.len()));
    }
    match rest.split_first() {
        None => Err(Fault::Ended),
        Some((Symbol::Word(_, text), behind)) => {
            *rest = behind;
            Ok(text.ident())
        }
        Some((Symbol::Variable(text), behind)) => {
            *rest = behind;
            Ok(text.ident())
        }
        Some(_) => Err(Fault::Unexpected(rest.len())),
    }
}

#[tactic(auto, using(crate::proofs::ShapeLemmas::operator_sign, crate::proofs::ShapeLemmas::operator_word))]
pub fn operator(rest: &mut Rest<'_>) -> Result<Compare, Fault>
    ensures { ReadsOne (λ op. (t : Symbol) × IsOperator t op × (rest.old ≡ t ∷ rest.new))
        want.Operator rest.old result }
{
    match rest.split_first() {
        None => Err(Fault::Ended),
        Some((Symbol::Operator(op), behind)) => {
            *rest = behind;
            Ok(*op)
        }
        Some((Symbol::Word(WordKind::Compare(op), _), behind)) => {
            *rest = behind;
            Ok(*op)
        }
        Some(_) => Err(Fault::Unexpected(rest.len())),
    }
}

/// Where the next operand of the list begins, behind a comma or at once.
pub fn further<'a>(kind: ListKind, rest: &Rest<'a>) -> Option<Rest<'a>>
    ensures { MatchOption result (goes_on kind rest.now ≡ false) (λ behind. GoesOn kind rest.now behind) }
{
    match rest.split_first() {
        Some((Symbol::Comma, behind)) => Some(behind),
        Some((first, _)) if kind.joins(first) => Some(rest.copied()),
        _ => None,
    }
}
