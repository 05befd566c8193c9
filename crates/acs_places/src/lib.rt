//! Where the tokens of a routine's text stand, by line and column (docs/manual/tool.md, "Explaining a script").
#![tactic(auto)]

mod place;
mod spot;
mod spots;

pub use place::Place;
pub use spot::{Spot, Spots};
pub use spots::spots_of;
