//! How a classification ends.
use acs_tree::Kind;
use dsn_mask::Short;

/// How the classification of a new data set ends (docs/manual/rules.md, "Classification").
#[derive(Clone, Copy)]
pub enum Stop {
    /// The data set has a storage class and storage groups.
    Done,
    /// It has no storage class, and isn't managed.
    Unmanaged,
    /// The routine of this kind ended with this code, which isn't 0.
    Exit { kind: Kind, code: u16 },
    /// The configuration has no class of this kind and name.
    Unknown { kind: Kind, name: Short },
    /// The storage group routine lists no storage group.
    NoGroup,
}
