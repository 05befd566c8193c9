//! What the routines of a deck give allocations that nobody makes.
#![tactic(auto)]

mod items;
mod outcome;
mod simulated;
mod simulating;

pub use items::{all_items, first_other};
pub use outcome::{push_outcome, push_written};
pub use simulated::Simulated;
pub use simulating::simulate;
