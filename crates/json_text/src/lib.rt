//! Pieces of JSON.
#![tactic(auto)]

mod quoting;

pub use quoting::push_quoted;
