//! The forms of what is printed.

/// In which form a list is printed (docs/manual/tool.md, "For other tools").
#[derive(Clone, Copy)]
pub enum Format {
    /// As lines for a person.
    Text,
    /// As comma-separated values, a header and a record for each.
    Csv,
    /// As values of JSON, a line for each.
    Json,
}
