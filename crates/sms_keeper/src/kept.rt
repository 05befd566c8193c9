//! What is kept for a request.
use sms_construct::{Op, Reply};

/// What the log keeps under a job and a request number.
#[derive(Drop)]
pub struct KeptReply {
    /// The place in the journal of the entry whose reply it is, counted from 1.
    pub place: u64,
    pub op: Op,
    pub reply: Reply,
}

/// What is found for a request.
#[derive(Drop)]
pub enum Kept<'a> {
    /// The number is fresh.
    New,
    /// The number was used for an equal op, at this place.
    Same { first: u64, reply: &'a Reply },
    /// The number was used for another op, at this place.
    Other { first: u64 },
    /// The number is below the floor of its job.
    Below { floor: u32 },
}
