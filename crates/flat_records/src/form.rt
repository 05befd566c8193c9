//! The forms of records.

/// In which form records are written (docs/manual/tool.md, "For other tools").
#[derive(Clone, Copy)]
pub enum RecordForm {
    /// As comma-separated values: a header, and a record for each.
    Csv,
    /// As values of JSON, a line for each.
    Json,
}
