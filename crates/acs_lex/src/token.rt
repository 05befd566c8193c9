// The tokens of ACS text.

use desk_common::Items;

/// The bytes of the longest sign.
pub const MAX_SIGN: usize = 2;

/// What a token is: a word, a variable, a text between quotes or a sign (docs/manual/acs-language.md, Tokens).
#[derive(Clone, Copy, Debug, PartialEq, Eq)]
pub enum TokenForm {
    Word,
    Variable,
    Literal,
    Sign,
}

/// A token of a text: its form, the place of its first byte, and the place behind its last.
#[derive(Clone, Copy, Debug, PartialEq, Eq)]
pub struct Token {
    pub form: TokenForm,
    pub from: u32,
    pub to: u32,
}

/// The tokens of a text in their order.
pub type Tokens = Items<Token>;
