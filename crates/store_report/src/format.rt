//! The forms of a list.

/// In which form a list is written (docs/manual/smsd.md, "Lists").
#[derive(Clone, Copy, Debug, PartialEq, Eq)]
pub enum Format {
    /// As comma-separated values, a header and a record for each row.
    Csv,
    /// As one value of JSON.
    Json,
    /// As columns that stand below each other.
    Text,
}
