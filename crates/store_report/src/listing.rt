//! What can be listed.

/// What a store is asked to list (docs/manual/smsd.md, "Lists").
#[derive(Clone, Copy, Debug, PartialEq, Eq)]
pub enum Listing {
    /// The storage groups of the active configuration, with the sums of their volumes.
    Groups,
    /// The volumes of the active configuration.
    Volumes,
    /// The data, storage and management classes of the active configuration.
    Classes,
    /// The catalogued data sets.
    Sets,
    /// Their extents.
    Extents,
}
