//! The versions of a deck.

/// The version of a deck, which says the keys of its tables (docs/manual/deck.md, "Keys").
#[derive(Clone, Copy)]
pub enum Version {
    One,
    Two,
}
