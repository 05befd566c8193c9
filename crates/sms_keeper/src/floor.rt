//! The floor of a job.
use desk_common::Items;
use dsn_mask::Name;

/// The floor of a job: its request numbers below it are refused.
#[derive(Clone, Copy)]
pub struct Floor {
    pub job: Name,
    pub floor: u32,
}

/// The floors of the jobs that have one.
pub type Floors = Items<Floor>;
