//! The words, the limits, the lists and the shared values of all crates.
#![tactic(auto)]

mod cutting;
mod limits;
mod number;
mod sameness;
mod shared;

pub use cutting::{bytes_before, next_word};
pub use limits::{
    BORDER, LAST_DAY, MAX_COMMANDS, MAX_DAYS, MAX_DECK, MAX_ENTRIES, MAX_EXIT_CODE, MAX_EXTENTS,
    MAX_FIELDS, MAX_GROUPS_SET, MAX_INPUT, MAX_ITEMS, MAX_LINE, MAX_LINES, MAX_LITERAL, MAX_NAME,
    MAX_PATH, MAX_PIECES, MAX_QUALIFIERS, MAX_QUANTITY, MAX_TRACK_MANAGED, MAX_VALUE, MAX_VOLSER,
    MAX_VOLUMES, MAX_WORD, MAX_WORKERS, TRACKS_IN_CYLINDER,
};
pub use number::push_number;
pub use sameness::are_same;
pub use shared::Shared;
pub use sqlite_items::{Boxed, Items};
