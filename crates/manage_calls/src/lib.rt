//! The top call of the desk with a day of space management behind the run.
#![tactic(auto)]

mod line_kind;
mod manage;
mod managing;
mod printing;
mod reading;
mod reserved;

pub use manage::manage_main;
pub use printing::push_managed;
