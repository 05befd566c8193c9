// The parser.
ghost use Rattle.std.specs.Prelude.{◌≡◌, ◌<◌, ◌^◌, ℕ, length, Some, IfOk, IfErr};
ghost use Rattle.acs_lex.specs.Tokens.{IsCut, InOrder};
ghost use Rattle.acs_symbol.specs.Symbols.{symbols_of};
ghost use Rattle.acs_parse.specs.Grammar.{limited, IsRoutine};
ghost use Rattle.desk_common.specs.Exact.{MayRefuse, IsExact};
ghost use Rattle.acs_parse.specs.ParseFault.{IsParseFault};
ghost use Rattle.acs_parse.specs.Inner.Reads.{Whole, told};

use crate::fault::{Fault, ParseErr};
use crate::statements::body;
use crate::tokens::{expect, head, place, skip};
use crate::want::Want;
use acs_lex::Tokens;
use acs_symbol::{Rest, Symbol, symbols};
use acs_tree::Routine;
use std::alloc::Global;

/// The tree of the routine that the text's tokens are. The places of the tree and of a refusal are
/// those of tokens, counted from 0 (docs/manual/acs-language.md, Grammar, Nesting and Places of faults).
#[tactic(auto, using(crate::proofs::RoutineLemmas::parse_steps))]
pub fn parse(alloc: Global, text: &[u8], tokens: &Tokens) -> Result<Routine, ParseErr>
    requires { IsCut text.now tokens.now }
    ensures ok { IfOk result (IsRoutine limited (symbols_of text.now tokens.now)) }
    ensures err { IfErr result (MayRefuse (IsParseFault (symbols_of text.now tokens.now)) (Some ParseErr.NoMemory)) }
    ensures exactly { IsExact (IsRoutine limited (symbols_of text.now tokens.now))
        (IsParseFault (symbols_of text.now tokens.now)) (Some ParseErr.NoMemory) result }
{
    let total = count(tokens);
    let symbols = symbols(alloc, text, tokens).map_err(|_| ParseErr::NoMemory)?;
    let mut rest = Rest::new(symbols.as_slice());
    parse_rest(alloc, total, &mut rest)
}

/// The tree of the routine that these tokens are, as `parse` gives it.
pub fn parse_symbols<'a>(alloc: Global, symbols: &'a [Symbol<'a>]) -> Result<Routine, ParseErr>
    requires { length symbols.now < 2 ^ 32 }
    ensures ok { IfOk result (IsRoutine limited symbols.entry.now) }
    ensures err { IfErr result (MayRefuse (IsParseFault symbols.entry.now) (Some ParseErr.NoMemory)) }
    ensures exactly { IsExact (IsRoutine limited symbols.entry.now) (IsParseFault symbols.entry.now)
        (Some ParseErr.NoMemory) result }
{
    let total = symbols.len() as u32;
    let mut rest = Rest::new(symbols);
    parse_rest(alloc, total, &mut rest)
}

/// The number of tokens of a text. It fits, since each has a byte of its own and all their places fit.
fn count(tokens: &Tokens) -> u32
    requires { (n : ℕ) × InOrder 0 n tokens.now }
    ensures { result ≡ length tokens.now }
{
    match tokens.as_slice().last() {
        None => 0,
        Some(last) => tokens.len().min(last.to as usize) as u32,
    }
}

#[tactic(auto, using(crate::proofs::RoutineLemmas::parse_rest_steps))]
fn parse_rest(alloc: Global, total: u32, rest: &mut Rest<'_>) -> Result<Routine, ParseErr>
    requires { total ≡ length rest.old }
    ensures ok { IfOk result (IsRoutine limited rest.old) }
    ensures err { IfErr result (MayRefuse (IsParseFault rest.old) (Some ParseErr.NoMemory)) }
    ensures exactly { IsExact (IsRoutine limited rest.old) (IsParseFault rest.old) (Some ParseErr.NoMemory) result }
{
    match routine(alloc, total, rest) {
        Ok(found) => Ok(found),
        Err(fault) => Err(fault.told(total)),
    }
}

#[tactic(auto, using(crate::proofs::RoutineLemmas::routine_steps))]
fn routine(alloc: Global, total: u32, rest: &mut Rest<'_>) -> Result<Routine, Fault>
    ensures { Whole total rest.old result }
{
    expect(Want::Proc, rest)?;
    let _numbered = skip(Want::Number, rest);
    let head_at = place(total, rest);
    let head = head(rest)?;
    let body = body(alloc, total, rest)?;
    match rest.split_first() {
        None => Ok(Routine {
            head,
            head_at,
            body,
        }),
        Some(_) => Err(Fault::Unexpected(rest.len())),
    }
}
