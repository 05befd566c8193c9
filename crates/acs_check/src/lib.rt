//! The checks of an ACS routine (docs/manual/acs-language.md, Checks).
#![tactic(auto)]

mod check_name;
mod checker;
mod earlier;
mod first_fault;
mod item;
mod lists;
mod named;
mod nodes;
mod numbers;
mod operands;
mod places;
mod references;
mod statements;

pub use acs_tree::CheckErr;
pub use checker::check;
