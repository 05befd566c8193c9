//! What a script's allocations reach.
use desk_common::Items;
use sms_construct::Fault;

/// What a script's allocations reach of the routines of a deck.
#[derive(Drop)]
pub struct Coverage {
    pub text: Items<u8>,
    /// Less of a routine is covered than was asked for.
    pub short: bool,
}

/// What the coverage of a script comes to (docs/manual/tool.md, "Coverage of a script").
#[derive(Drop)]
pub enum Covered {
    Shown(Coverage),
    /// The deck has this fault.
    Refused(Fault),
    /// The item of this line isn't the one asked there.
    Misplaced(u32),
}
