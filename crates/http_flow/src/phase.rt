//! How a conversation stands.

/// How a conversation stands.
#[derive(Clone, Copy, Debug, PartialEq, Eq)]
pub enum Phase {
    /// All that was asked is answered; more bytes may come.
    Waits,
    /// As many bytes are due as may be, or the clerk has no room; further questions may have come whole.
    Full,
    /// The last answer closes it.
    Closed,
    /// A message was refused with this status.
    Refused(u16),
    /// Memory was wanting, for what came or for the answer of the last request that was heard. All others stand.
    NoMemory,
}
