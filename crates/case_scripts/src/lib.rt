//! The cases of a table as a script, so that what is told of scripts can be told of them.
#![tactic(auto)]

mod script;

pub use script::case_script;
