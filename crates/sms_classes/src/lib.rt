//! What the routines of a configuration give a new data set (docs/manual/rules.md, "Classification").
#![tactic(auto)]

mod classification;
mod classified;
mod knowing;
mod leaving;
mod names;
mod onward;
mod replies;
mod routine;
mod sizes;
mod stops;

pub use classification::classify;
pub use classified::Classified;
pub use knowing::classes_are_known;
pub use names::{class_name, data_class_of, has_tiers};
pub use replies::stop_reply;
pub use sizes::{eattr_of, space_of, volume_count_of};
