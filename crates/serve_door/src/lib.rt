//! The links of a door, served one after the other.
#![tactic(auto)]

mod bench;
mod door;
mod door_end;
mod visit;

pub use bench::Bench;
pub use door::serve_door;
pub use door_end::DoorEnd;
pub use visit::{Visit, Visits};
