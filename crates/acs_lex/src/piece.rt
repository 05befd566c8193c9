//! What stands at the front of a text that begins with no blank.

use crate::fault::LexErr;
use crate::token::Token;

/// What stands at the front of a text that begins with no blank: a comment, a token, each with what is behind it, or
/// the fault that is met there.
#[derive(Clone, Copy)]
pub enum Piece<'a> {
    Gap(&'a [u8]),
    Token(Token, &'a [u8]),
    Fault(LexErr),
}
