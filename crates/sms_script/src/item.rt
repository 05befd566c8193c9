//! The items of a script.
use desk_common::Items;
use sms_construct::Request;

/// A request with the line of its script that asks it. Lines count from 1.
#[derive(Drop)]
pub struct Item {
    pub line: u32,
    pub request: Request,
}

/// The requests between two SYNC lines, in the order of their lines.
pub type Phase = Items<Item>;

/// The phases of a script in their order: one more than it has SYNC lines.
pub type Script = Items<Phase>;
