//! The text of a routine by its tokens.
use crate::spot::{Spot, bytes_of, tokens_of};
use acs_lex::{MAX_WORD, Token, TokenForm, Tokens};
use acs_tree::{Ident, Variable};
use std::alloc::Global;

/// The text of a routine with its tokens, which count from 0.
#[derive(Drop)]
pub struct RoutineText<'a> {
    text: &'a [u8],
    tokens: Tokens,
}

impl<'a> RoutineText<'a> {
    /// The text, if it has tokens.
    pub fn new(alloc: Global, text: &'a [u8]) -> Option<Self> {
        let tokens = tokens_of(alloc, text)?;
        Some(RoutineText { text, tokens })
    }

    /// How many tokens there are.
    pub fn count(&self) -> usize {
        self.tokens.len()
    }

    /// The token with this number.
    pub fn token(&self, number: usize) -> Option<&Token> {
        self.tokens.as_slice().get(number)
    }

    /// The bytes of the token with this number; none where there are fewer.
    pub fn bytes(&self, number: usize) -> &'a [u8] {
        match self.token(number) {
            Some(token) => {
                let spot = bytes_of(token);
                self.text.get(spot.from..spot.to).unwrap_or(&[])
            }
            None => &[],
        }
    }

    /// Where the token with this number stands.
    pub fn spot(&self, number: usize) -> Option<Spot> {
        self.token(number).map(|token| bytes_of(token))
    }

    /// Whether the token is of this form.
    pub fn has_form(&self, number: usize, form: TokenForm) -> bool {
        self.token(number).is_some_and(|token| token.form == form)
    }

    /// Whether the token is this word, in either case.
    pub fn is_word(&self, number: usize, word: &[u8]) -> bool {
        self.has_form(number, TokenForm::Word) && self.bytes(number).eq_ignore_ascii_case(word)
    }

    /// Whether the token is a comparison, by its sign or by its word.
    pub fn is_comparison(&self, number: usize) -> bool {
        if self.has_form(number, TokenForm::Sign) {
            return !matches!(self.bytes(number), b"&&" | b"|" | b"(" | b")" | b",");
        }
        COMPARISONS.iter().any(|word| self.is_word(number, word))
    }

    /// What is known of the variable that the token is.
    pub fn variable(&self, number: usize) -> Option<Variable> {
        if !self.has_form(number, TokenForm::Variable) {
            return None;
        }
        let name = self.bytes(number).get(1..)?;
        if name.len() > MAX_WORD {
            return None;
        }
        Variable::named(&Ident::upper(name))
    }

    /// The line of the text in which the token stands, from 1.
    pub fn line(&self, number: usize) -> usize {
        let from = self.spot(number).map_or(self.text.len(), |spot| spot.from);
        let before = self.text.get(..from).unwrap_or(self.text);
        let ends = before.iter().filter(|byte| **byte == b'\n').count();
        ends.saturating_add(1)
    }
}

static COMPARISONS: [&[u8]; 8] = [b"EQ", b"NE", b"GT", b"LT", b"GE", b"LE", b"NG", b"NL"];
