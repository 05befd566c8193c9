//! What happens in the routines of a configuration while a new data set is classified (docs/manual/tool.md,
//! "Explaining a script").
#![tactic(auto)]

mod begin;
mod case_story;
mod onward;
mod routine;
mod run;
mod telling;

pub use case_story::CaseStory;
pub use run::{Run, Runs};
pub use telling::{runs_of, tell};
