//! Tokens at their places.
use crate::place::Place;
use acs_lex::Token;
use desk_common::Items;

/// A token, and the place of its first byte.
#[derive(Clone, Copy)]
pub struct Spot {
    pub place: Place,
    pub token: Token,
}

/// The tokens of a text in their order.
pub type Spots = Items<Spot>;
