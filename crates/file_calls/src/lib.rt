//! The top call of the desk over a database file.
#![tactic(auto)]

mod file;

pub use file::{answer_file, answer_over};
