//! What the routines of a deck do with allocations that nobody makes, statement by statement.
#![tactic(auto)]

mod deck_sources;
mod explaining;
mod picking;
mod run_text;

pub use deck_sources::{DeckSources, sources_of};
pub use explaining::{explain, push_item};
pub use picking::picked_items;
pub use run_text::{push_runs, push_values};
