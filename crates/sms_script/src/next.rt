//! One step through a script.
use crate::item::Item;

/// What the first line of a text gives.
#[derive(Drop)]
pub enum Found {
    /// A blank line or a comment.
    Nothing,
    /// A request.
    Asked(Item),
    /// The end of a phase.
    PhaseEnd,
}

/// How many commands and lines stand before a place of a script.
#[derive(Clone, Copy)]
pub struct Progress {
    pub commands: u32,
    pub lines: u32,
}

/// What the first line of a text gives, what is behind the lines that it takes, and how far that is.
#[derive(Drop)]
pub struct Next<'a> {
    pub found: Found,
    pub rest: &'a [u8],
    pub passed: Progress,
}
