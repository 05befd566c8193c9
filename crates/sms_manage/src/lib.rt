//! Space management: what is due of the catalogued data sets on a day, and a day of it.
#![tactic(auto)]

mod act;
mod day;
mod expiry;
mod wanted;

pub use act::{Act, Acts};
pub use day::{MANAGER, run_day, run_day_from};
pub use expiry::due;
pub use wanted::Due;
