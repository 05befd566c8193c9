//! Why no further link of a door is served.

/// Why no further link of a door is served.
#[derive(Clone, Copy, Debug, PartialEq, Eq)]
pub enum DoorEnd {
    /// As many links were served as were asked for.
    Served,
    /// No further link comes.
    Ended,
    /// The door failed.
    AcceptFault,
    /// Memory for one more visit was wanting; no link was asked for it.
    NoMemory,
}
