//! The words of the command line of the lasting desk.
#![tactic(auto)]

mod command;
mod examples;
mod manage_words;
mod query_words;
mod reading;
mod run_words;
mod running;
mod serve_words;
mod serving;
mod task;
mod values;
mod words_err;

pub use examples::values_wanted;
pub use reading::{shown_text, task_asked};
pub use running::Running;
pub use serving::Serving;
pub use task::{Asked, Task};
pub use words_err::WordsErr;
