//! The cases of a table.
use crate::case::Case;
use deck_meaning::Config;
use desk_common::Items;

/// Cases, and the two configurations under which they are compared.
#[derive(Drop)]
pub struct Cases {
    /// The configuration of the deck behind OLD.
    pub before: Config,
    /// The configuration of the deck behind NEW.
    pub after: Config,
    /// The cases in the order of their records.
    pub list: Items<Case>,
}
