//! The limit of what is told of a deck (docs/manual/tool.md, "Every fault of a deck").

/// The most faults of a deck that are told.
pub const MAX_FAULTS: usize = 100;
