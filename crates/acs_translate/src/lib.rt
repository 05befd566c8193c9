//! The translator of ACS routines: scanner, parser and checks in this order, as one call.
#![tactic(auto)]

mod fault;
mod translating;

pub use fault::{RoutineFault, Stage, TranslateErr};
pub use translating::translate;
