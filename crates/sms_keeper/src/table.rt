//! The tables by name.

/// A table of the records, in the order in which they are loaded.
#[derive(Clone, Copy, Debug, PartialEq, Eq)]
pub enum Table {
    Sets,
    Replies,
    Decks,
    Statuses,
    Floors,
}
