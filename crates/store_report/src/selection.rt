//! Which rows of a list are asked for.
use dsn_mask::{Mask, Name, Volser};

/// Which rows of a list are asked for: those that fit each of these that is there (docs/manual/smsd.md, "Lists").
#[derive(Clone, Copy)]
pub struct Selection {
    /// The names of data sets that fit it.
    pub mask: Option<Mask>,
    /// A storage group.
    pub group: Option<Name>,
    /// A volume.
    pub volume: Option<Volser>,
}
