//! The desk of a store, served to many connections.
#![tactic(auto)]

mod keeping;
mod room;
mod serving_end;

pub use keeping::{Kept, keep_serving};
pub use serving_end::ServingEnd;
