//! Why words ask for nothing.

/// Why the words of the command line ask for no task (docs/manual/smsd.md, "Words").
#[derive(Clone, Copy, Debug, PartialEq, Eq)]
pub enum WordsErr {
    /// They are refused.
    Bad,
    /// They ask for a text of help, or for the version.
    Shown,
    /// Memory was wanting.
    NoMemory,
}
