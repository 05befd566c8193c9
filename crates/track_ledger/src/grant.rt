//! What the gap rule grants.
use crate::piece::Piece;
use arrayvec::ArrayVec;

/// The pieces of a grant in the order taken: at most five, which take no memory.
pub type Grant = ArrayVec<Piece, 6>;
