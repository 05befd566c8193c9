//! The generated script, and the summary of its run.
#![tactic(auto)]

mod counting;
mod deck;
mod drawing;
mod generating;
mod names;
mod summing;

pub use generating::generate;
pub use summing::summary;
