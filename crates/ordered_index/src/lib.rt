//! A map in the order of its keys whose room is taken ahead.
#![tactic(auto)]

mod chunks;
mod index;
mod moving;
mod rows;
mod spot;

pub use index::OrderedIndex;
