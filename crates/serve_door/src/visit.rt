//! Visits.
use desk_common::Items;
use http_talk::{End, Talks};

/// A link that was served: the requests that were heard with their answers, and how its conversation ended.
#[derive(Drop)]
pub struct Visit {
    pub talks: Talks,
    pub end: End,
}

/// The visits of a door, in the order in which it gave their links.
pub type Visits = Items<Visit>;
