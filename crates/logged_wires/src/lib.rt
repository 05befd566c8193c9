//! Connections whose ends are told of on standard error.
#![tactic(auto)]

mod counted_wire;
mod logged_door;

pub use counted_wire::CountedWire;
pub use logged_door::LoggedDoor;
