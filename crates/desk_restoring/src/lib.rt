//! The running state and the log of kept replies of a desk that goes on from recorded rows.
#![tactic(auto)]

mod cataloguing;
mod configuring;
mod logging;
mod opened;
mod placing;
mod restored;
mod restoring;

pub use opened::greatest_place;
pub use restored::Restored;
pub use restoring::restore;
