//! The forms of a listing.

/// In which form cases are listed (docs/manual/tool.md, "For other tools").
#[derive(Clone, Copy)]
pub enum CaseForm {
    /// As lines for a person, and a last one that counts them.
    Lines,
    /// As comma-separated values: a header, and a record for each.
    Csv,
    /// As values of JSON, a line for each.
    Json,
}
