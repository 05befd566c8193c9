//! What is told of a script.
use crate::status::ToolStatus;
use desk_common::Items;
use sms_construct::Fault;

/// What a task tells of the allocations of a script.
#[derive(Drop)]
pub enum ScriptTold {
    /// This text, with which the call ends so.
    Shown(ToolStatus, Items<u8>),
    /// The deck has this fault.
    Refused(Fault),
    /// The item of this line isn't the one asked there.
    Misplaced(u32),
}
