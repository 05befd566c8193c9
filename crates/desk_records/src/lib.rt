//! What a core has beside its running state: the log of kept replies, the keeper, and the commit of a change.
#![tactic(auto)]

mod full;
mod opening;
mod recalling;
mod records;
mod sound;

pub use full::is_full;
pub use opening::Opening;
pub use recalling::recall;
pub use records::Records;
pub use sound::request_is_sound;
