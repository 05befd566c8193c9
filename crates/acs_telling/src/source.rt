//! The text of a routine.
ghost use Rattle.std.specs.Prelude.{◌≡◌, ◌<◌, ◌^◌, [], length, Some, IfErr, IfOk};
ghost use Rattle.acs_lex.specs.LexFault.{IsFirstLexFault};
ghost use Rattle.acs_telling.specs.Sources.{IsSource, no_spot, part_of, spot_at, word_at};
ghost use Rattle.desk_common.specs.Exact.{MayRefuse};

use acs_lex::{LexErr, Token, TokenForm};
use acs_places::{Place, Spot, Spots, spots_of};
use desk_common::Items;
use std::alloc::Global;

/// The text of a routine, and its tokens at their places.
#[derive(Drop)]
pub struct Source {
    pub text: Items<u8>,
    pub spots: Spots,
}

impl Source {
    /// No text.
    pub fn none(alloc: Global) -> Self
        ensures text { result.text ≡ [] }
        ensures spots { result.spots ≡ [] }
    {
        Source {
            text: Items::new(alloc),
            spots: Items::new(alloc),
        }
    }

    /// The text with its tokens, or the fault that the scanner meets first.
    pub fn new(alloc: Global, text: &[u8]) -> Result<Self, LexErr>
        requires { length text.now < 2 ^ 32 }
        ensures ok { IfOk result (IsSource text.now) }
        ensures err { IfErr result (MayRefuse (IsFirstLexFault text.now) (Some LexErr.NoMemory)) }
    {
        let spots = match spots_of(alloc, text) {
            Ok(spots) => spots,
            Err(err) => return Err(err),
        };
        match Items::from_slice(alloc, text) {
            Ok(text) => Ok(Source { text, spots }),
            Err(_) => Err(LexErr::NoMemory),
        }
    }

    /// The token with this number; where there is none, an empty one at the text's front.
    pub fn spot_at(&self, number: usize) -> Spot
        ensures { result ≡ spot_at self.now number }
    {
        match self.spots.as_slice().get(number) {
            Some(spot) => *spot,
            None => no_spot(),
        }
    }

    /// The bytes of that token.
    pub fn word_at(&self, number: usize) -> &[u8]
        ensures { result.now ≡ word_at self.now number }
    {
        let token = self.spot_at(number).token;
        part(self.text.as_slice(), token.from as usize, token.to as usize)
    }
}

fn no_spot() -> Spot
    ensures { result ≡ no_spot }
{
    Spot {
        place: Place::first(),
        token: Token {
            form: TokenForm::Word,
            from: 0,
            to: 0,
        },
    }
}

// The bytes between two places, as far as the text has them.
fn part(text: &[u8], from: usize, to: usize) -> &[u8]
    ensures { result.now ≡ part_of text.now from to }
{
    if from <= to && to <= text.len() {
        &text[from..to]
    } else {
        &[]
    }
}
