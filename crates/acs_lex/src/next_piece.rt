//! The piece at the front of what is left of a text, for a reader that makes of each token at once what it needs.
ghost use Rattle.std.specs.Prelude.{◌≡◌, ◌≤◌, ◌∷◌, false, length};
ghost use Rattle.acs_lex.specs.Lexical.{is_blank};
ghost use Rattle.acs_lex.specs.Pieces.{IsPiece};

use crate::forms::front;
use crate::piece::Piece;

/// The piece at the front of what is left of a text of so many bytes, where it begins with a byte that is no blank
/// and has others behind it: a comment, a token or the fault that is met there (docs/manual/acs-language.md, Tokens).
#[tactic(auto, using(crate::proofs::CutLemmas::is_piece))]
pub fn front_piece<'a>(total: u32, text: &'a [u8], first: u8, behind: &'a [u8]) -> Piece<'a>
    requires fits { length text.now ≤ total }
    requires parts { text.now ≡ first ∷ behind.now }
    requires inked { is_blank first ≡ false }
    ensures { IsPiece total text.entry.now result }
{
    front(total, text, first, behind)
}
