//! Why no desk goes on from rows.

/// Why no desk goes on from rows that were found: the first test that they don't pass, 1 to 6 (docs/manual/records.md,
/// "Found rows"), or want of memory.
#[derive(Clone, Copy)]
pub enum RowsErr {
    Unsound(u8),
    NoMemory,
}
