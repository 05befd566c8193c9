//! Many connections that one clerk serves as they become ready.
#![tactic(auto)]

mod hall;
mod serving;
mod step;
mod visitor;

pub use hall::Hall;
pub use serving::{LoopEnd, serve_event};
pub use step::{Left, Step};
pub use visitor::Visitor;
