//! A deck in an input.

/// The bytes of a deck, and how many lines of the input stand before it.
#[derive(Clone, Copy)]
pub struct DeckPart<'a> {
    pub bytes: &'a [u8],
    pub lines_before: usize,
}
