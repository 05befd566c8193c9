//! The signed list of a desk: what the desk began with, and each entry of its journal with the seat that made it.
#![tactic(auto)]

mod event;

pub use event::Event;
