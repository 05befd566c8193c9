//! What a deck changes of the active configuration.
#![tactic(auto)]

mod changes;
mod construct;
mod lines;
mod missing;
mod routines;

pub use changes::deck_changes;
