//! What a script's allocations reach of the routines of a deck, without a desk.
#![tactic(auto)]

mod counting;
mod coverage;
mod covering;
mod kind_tallies;
mod shortfall;
mod text;

pub use counting::counted;
pub use coverage::{Coverage, Covered};
pub use covering::cover;
pub use kind_tallies::KindTallies;
pub use shortfall::is_short;
