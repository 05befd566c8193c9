//! Volumes with the thresholds of their storage groups and their longest gaps.
#![tactic(auto)]

mod longest;
mod measuring;

pub use measuring::{all_extents, listed_volumes};
