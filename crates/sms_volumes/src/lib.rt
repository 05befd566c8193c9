//! The volumes of the active configuration: their statuses, their tracks, and which of them may be chosen.
#![tactic(auto)]

mod active_group;
mod active_volume;
mod active_volumes;
mod asked;
mod barring;
mod candidates;
mod changing;
mod handing;
mod lead;
mod next;
mod pick;
mod showing;
mod status_rows;
mod varying;
mod viewing;

pub use active_group::ActiveGroup;
pub use active_volume::ActiveVolume;
pub use active_volumes::ActiveVolumes;
pub use asked::Asked;
pub use candidates::{Candidates, lies_on};
pub use pick::Pick;
