// The scanner.
ghost use Rattle.std.specs.Prelude.{◌≡◌, ◌<◌, ◌^◌, [], length, Some, IfOk, IfErr, All};
ghost use Rattle.acs_lex.specs.Tokens.{IsCut, InOrder, IsTokenOf};
ghost use Rattle.desk_common.specs.Exact.{MayRefuse, IsExact};
ghost use Rattle.acs_lex.specs.LexFault.{IsFirstLexFault};

use crate::bytes::is_blank;
use crate::fault::LexErr;
use crate::forms::front;
use crate::piece::Piece;
use crate::token::Tokens;
use std::alloc::Global;

// About so many bytes of a text make a token.
const BYTES_TO_A_TOKEN: usize = 4;

// An empty list with room for the tokens of an ordinary text, so that it seldom grows.
fn room_for(alloc: Global, text: &[u8]) -> Result<Tokens, LexErr>
    ensures ok { IfOk result (λ tokens. tokens ≡ []) }
    ensures err { IfErr result (λ err. err ≡ LexErr.NoMemory) }
{
    match Vec::with_capacity(alloc, text.len() / BYTES_TO_A_TOKEN) {
        Ok(room) => Ok(Tokens::from_vec(room)),
        Err(_) => Err(LexErr::NoMemory),
    }
}

/// The tokens of the text in their order, or the fault that is met first from the left
/// (docs/manual/acs-language.md).
#[tactic(auto, using(crate::proofs::CutLemmas::want_is_exact))]
pub fn scan(alloc: Global, text: &[u8]) -> Result<Tokens, LexErr>
    requires { length text.now < 2 ^ 32 }
    ensures ok { IfOk result (IsCut text.now) }
    ensures err { IfErr result (MayRefuse (IsFirstLexFault text.now) (Some LexErr.NoMemory)) }
    ensures exactly { IsExact (IsCut text.now) (IsFirstLexFault text.now) (Some LexErr.NoMemory) result }

    // Where the tokens stand.
    ensures order { IfOk result (InOrder 0 (length text.now)) }
    ensures each { IfOk result (All (IsTokenOf text.now)) }
{
    let total = text.len() as u32;
    let mut tokens = room_for(alloc, text)?;
    let mut rest = text;
    'pieces: while let Some((first, behind)) = rest.split_first() {
        if is_blank(*first) {
            rest = behind;
            continue;
        }
        match front(total, rest, *first, behind) {
            Piece::Gap(behind) => rest = behind,
            Piece::Token(token, behind) => {
                tokens.push(token).map_err(|_| LexErr::NoMemory)?;
                rest = behind;
            }
            Piece::Fault(err) => return Err(err),
        }
    }
    Ok(tokens)
}
