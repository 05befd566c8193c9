//! The row of a kept reply.
use desk_common::Items;
use dsn_mask::Name;
use sms_construct::{Reply, Request, RequestNumber};

/// A reply that is kept under a job and a request number, with its request and its place in the journal.
#[derive(Drop)]
pub struct KeptRow {
    pub job: Name,
    pub number: RequestNumber,
    pub place: u64,
    pub request: Request,
    pub reply: Reply,
}

/// Kept replies.
pub type KeptRows = Items<KeptRow>;
