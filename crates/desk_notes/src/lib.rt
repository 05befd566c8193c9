//! What is said of a run of the desk that didn't end well, in plain words for the person at the terminal
//! (docs/manual/script.md, "What is said of a fault"). Where memory for it is wanting, nothing is said.
#![tactic(auto)]

mod code_counts;
mod forms;
mod refused_decks;
mod replies;
mod reply_counts;
mod running;
mod word_faults;
mod word_hints;

pub use refused_decks::{note_all_replies, note_replies};
pub use replies::RepliesSeen;
pub use running::{note_run, sentence_of};
