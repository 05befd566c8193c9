//! The words of the desk's command line.
#![tactic(auto)]

mod asked;
mod managing;
mod served;
mod serving;
mod task;

pub use asked::task_asked;
pub use managing::managed_day;
pub use served::ServeWords;
pub use serving::serve_words;
pub use task::Task;
