//! Which worker gets which item of a script.
#![tactic(auto)]

mod job_numbers;
mod numbering;
mod planning;
mod ranking;

pub use job_numbers::JobNumbers;
pub use planning::{has_one_job, plan};
pub use ranking::rank;
