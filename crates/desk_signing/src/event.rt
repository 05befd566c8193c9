//! What the signed list of a desk is made of.
use desk_records::Opening;
use sms_construct::Entry;

/// What a desk began with, or an entry of its journal (docs/manual/workers.md, "The desk"). Contracts speak of it; no
/// value of it is made.
pub enum Event {
    /// The opening of the core, the count of faults at which the core found its keeper, and how many entries there
    /// were.
    Began {
        opening: Opening,
        mark: u64,
        before: u64,
    },
    /// An entry.
    Made(Entry),
}
