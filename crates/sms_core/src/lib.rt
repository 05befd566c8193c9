//! The desk's core over a keeper: each request that it enters is a lawful step of its history.
#![tactic(auto)]

mod classifying;
mod core_state;
mod preparing;
mod room;

pub use classifying::classify;
pub use core_state::Core;
pub use desk_state::{Work, work_stays};
