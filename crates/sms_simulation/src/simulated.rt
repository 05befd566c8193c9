//! What a simulation comes to.
use desk_common::Items;
use sms_construct::Fault;

/// What a simulation comes to (docs/manual/tool.md, "Simulating a script").
#[derive(Drop)]
pub enum Simulated {
    /// The text of all allocations.
    Shown(Items<u8>),
    /// The deck has this fault.
    Refused(Fault),
    /// The item of this line isn't the one asked there.
    Misplaced(u32),
}
