//! Workers.
use serve_door::{DoorEnd, Visits};
use sms_desk::JobSeat;
use sms_keeper::Keeper;
use std::alloc::Global;

/// A worker: its seat and its door, how many links of it are served at most, the visits of those that were served, and
/// why no further one was.
#[derive(Drop)]
pub struct Worker<A, P: Keeper> {
    pub alloc: Global,
    pub most: u32,
    pub seat: Option<JobSeat<P>>,
    pub door: A,
    pub visits: Visits,
    pub end: DoorEnd,
}
