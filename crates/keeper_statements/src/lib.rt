//! The texts of the desk's database, a function for each, with what it does to the rows of the five tables or reads of
//! them.
#![tactic(auto)]

mod decks;
mod floors;
mod making;
mod present;
mod reading;
mod replies;
mod sets;
mod statuses;

pub use decks::add_deck;
pub use floors::{has_floor_above, put_floor};
pub use making::make_tables;
pub use present::{Present, has_hidden, present_among};
pub use reading::{all_decks, all_floors, all_replies, all_sets, all_statuses};
pub use replies::{add_reply, drop_replies_below};
pub use sets::{drop_set, put_set};
pub use statuses::{add_status, clear_statuses, drop_status};
