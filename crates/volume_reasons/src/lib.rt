//! Why each candidate volume of an allocation may be chosen or not, on a desk that has just activated a deck.
#![tactic(auto)]

mod asking;
mod empty_desk;
mod explaining;
mod laws;
mod pushing;
mod reason;
mod turn;
mod viewing;

pub use explaining::explain_volumes;
pub use laws::{told_answers, told_choices, told_reasons};
pub use reason::{Reason, reason_in};
