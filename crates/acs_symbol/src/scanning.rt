//! A text's tokens as its grammar reads them, made while it is scanned, so that no list of tokens is kept.
ghost use Rattle.std.specs.Prelude.{◌≡◌, ◌<◌, ◌^◌, [], length, Some, IfOk, IfErr};
ghost use Rattle.desk_common.specs.Exact.{MayRefuse, IsExact};
ghost use Rattle.acs_lex.specs.LexFault.{IsFirstLexFault};
ghost use Rattle.acs_symbol.specs.Symbols.{AreSymbolsOf};

use crate::reading::symbol;
use crate::symbol::Symbol;
use acs_lex::{LexErr, Piece, front_piece, is_blank};
use desk_common::Items;
use std::alloc::Global;

// About so many bytes of a text make a token.
const BYTES_TO_A_TOKEN: usize = 4;

/// The tokens of a text with their texts, in their order.
pub type Symbols<'a> = Items<Symbol<'a>>;

// An empty list with room for the tokens of an ordinary text, so that it seldom grows.
fn room_for<'a>(alloc: Global, text: &'a [u8]) -> Result<Symbols<'a>, LexErr>
    ensures ok { IfOk result (λ symbols. symbols ≡ []) }
    ensures err { IfErr result (λ err. err ≡ LexErr.NoMemory) }
{
    match Vec::with_capacity(alloc, text.len() / BYTES_TO_A_TOKEN) {
        Ok(room) => Ok(Symbols::from_vec(room)),
        Err(_) => Err(LexErr::NoMemory),
    }
}

/// The tokens of a text with their texts, or the fault that is met first from the left
/// (docs/manual/acs-language.md).
#[tactic(auto, using(crate::proofs::ScanLemmas::read_steps))]
pub fn read_symbols<'a>(alloc: Global, text: &'a [u8]) -> Result<Symbols<'a>, LexErr>
    requires { length text.now < 2 ^ 32 }
    ensures ok { IfOk result (AreSymbolsOf text.entry.now) }
    ensures err { IfErr result (MayRefuse (IsFirstLexFault text.entry.now) (Some LexErr.NoMemory)) }
    ensures exactly { IsExact (AreSymbolsOf text.entry.now) (IsFirstLexFault text.entry.now) (Some LexErr.NoMemory)
        result }
{
    let total = text.len() as u32;
    let mut symbols = room_for(alloc, text)?;
    let mut rest = text;
    'pieces: while let Some((first, behind)) = rest.split_first() {
        if is_blank(*first) {
            rest = behind;
            continue;
        }
        match front_piece(total, rest, *first, behind) {
            Piece::Gap(behind) => rest = behind,
            Piece::Token(token, behind) => {
                symbols
                    .push(symbol(text, &token))
                    .map_err(|_| LexErr::NoMemory)?;
                rest = behind;
            }
            Piece::Fault(err) => return Err(err),
        }
    }
    Ok(symbols)
}
