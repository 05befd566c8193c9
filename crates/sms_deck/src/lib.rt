//! Decks: from the bytes to a configuration, or its first fault (docs/manual/deck.md).
#![tactic(auto)]

mod assigned;
mod construct_tables;
mod constructs;
mod forms;
mod places;
mod reading;
mod rows;
mod sources;
mod top_table;
mod values;
mod volume_table;

pub use reading::read_deck;
