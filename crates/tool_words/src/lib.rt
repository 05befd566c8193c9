//! The words of the tool's command line.
#![tactic(auto)]

mod command;
mod comparison;
mod examples;
mod format;
mod paths;
mod pick;
mod printed;
mod reading;
mod script_task;
mod task;
mod value_faults;
mod values;
mod words_err;

pub use comparison::Comparison;
pub use format::Format;
pub use paths::Paths;
pub use pick::Pick;
pub use reading::{paths_asked, shown_text, task_asked};
pub use script_task::ScriptTask;
pub use task::Task;
pub use words_err::WordsErr;
