//! What rows tell of the changes of desks.
use row_store::Row;
use std::alloc::{AllocError, Global};

// Whether the row is of this desk.
fn is_of(row: &Row, desk: u8) -> bool {
    row.key.as_slice().starts_with(&[desk])
}

/// The numbers of the desk's rows, in the order in which they were put.
pub fn numbers_of(alloc: Global, rows: &[Row], desk: u8) -> Result<Vec<u8>, AllocError> {
    let mut numbers = Vec::new(alloc);
    for row in rows {
        if is_of(row, desk) {
            numbers.extend_from_slice(row.value.as_slice())?;
        }
    }
    Ok(numbers)
}

/// Whether the acknowledged changes are there, each once and in their order, and behind them one at most that wasn't.
pub fn are_there(numbers: &[u8], told: &[u8]) -> bool {
    numbers.starts_with(told) && numbers.len().saturating_sub(told.len()) < 2
}

/// Whether the desk's rows stand together, so that no other desk put one between them.
pub fn are_together(rows: &[Row], desk: u8) -> bool {
    let mut parts: u8 = 0;
    let mut is_own = false;
    for row in rows {
        if is_of(row, desk) && !is_own {
            parts = parts.saturating_add(1);
        }
        is_own = is_of(row, desk);
    }
    parts < 2
}
