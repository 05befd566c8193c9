//! What a line outside the deck blocks is to a run with a day of space management.

/// What a line outside the deck blocks is to a run with a day of space management (docs/manual/management.md).
#[derive(Clone, Copy)]
pub enum LineKind {
    /// The job of space management asks, or is purged.
    Reserved,
    /// A deck block begins behind it.
    Opening,
    /// Any other line.
    Other,
}
