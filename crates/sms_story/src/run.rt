//! The run of one routine.
use acs_trace::Events;
use acs_tree::{Ending, Kind, Values};
use desk_common::Items;

/// The run of a routine: what the read-write variables held at its begin, what happened, what they held at its end,
/// and how it ended.
#[derive(Drop)]
pub struct Run {
    pub kind: Kind,
    pub begins: Values,
    pub events: Events,
    pub ends: Values,
    pub ending: Ending,
}

/// Runs in their order.
pub type Runs = Items<Run>;
