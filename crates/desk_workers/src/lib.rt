//! A script answered by several workers.
#![tactic(auto)]

mod crew;
mod merging;
mod phase;
mod phases;
mod rooms;
mod running;
mod sharing;
mod single;
mod working;

pub use running::run_workers;
