//! Connections over TCP that are told of as ready by the system's own watch.
#![tactic(auto)]

mod door;
mod wire;

pub use door::PollDoor;
pub use wire::TcpWire;
