//! The machine that runs the code of a routine (docs/manual/acs-language.md, Code).
#![tactic(auto)]

mod answers;
pub mod classes;
pub mod compare;
mod draft;
pub mod line;
mod machine;
mod memo;
mod passing;
mod short;
mod value;
mod values;

pub use machine::run;
