//! What classifications come to, as records for other tools.
#![tactic(auto)]

mod item_record;
mod members;
mod outcome_field;
mod simulating;

pub use members::{push_members, push_text};
pub use outcome_field::outcome_text;
pub use simulating::simulate_records;
