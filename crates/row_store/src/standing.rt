//! How a hold stands.

/// How a hold on a prefix stands.
#[derive(Clone, Copy, Debug, PartialEq, Eq)]
pub enum Standing {
    /// All that was asked is answered.
    Free,
    /// No answer came to a change, and it isn't settled yet.
    Waiting,
    /// A change that was told as failed was made after all. Nothing is written any more.
    Behind,
    /// Another desk took the prefix. Nothing is written any more.
    Taken,
}
