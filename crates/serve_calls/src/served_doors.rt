//! Doors that were served.
use desk_common::Items;
use serve_door::{DoorEnd, Visits};

/// The visits of each door, in the order of the doors.
pub type DoorVisits = Items<Visits>;

/// The visits of each door, and why no further link of it was served.
#[derive(Drop)]
pub struct ServedDoors {
    pub visits: DoorVisits,
    pub ends: Vec<DoorEnd>,
}
