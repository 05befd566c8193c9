//! Rows.
ghost use Rattle.std.specs.Prelude.{◌≡◌, IfOk};

use desk_common::Items;
use std::alloc::{AllocError, Global};

/// A key and its value.
#[derive(Drop)]
pub struct Row {
    pub key: Items<u8>,
    pub value: Items<u8>,
}

/// Rows, in the order of their keys where a history began with none.
pub type Rows = Items<Row>;

impl Row {
    /// The same row, or want of memory.
    pub fn copy(&self, alloc: Global) -> Result<Self, AllocError>
        ensures { IfOk result (λ copy. copy ≡ self.now) }
    {
        Ok(Row {
            key: Items::from_slice(alloc, self.key.as_slice())?,
            value: Items::from_slice(alloc, self.value.as_slice())?,
        })
    }
}

// The same rows.
pub(crate) fn copied_rows(alloc: Global, rows: &[Row]) -> Result<Vec<Row>, AllocError>
    ensures { IfOk result (λ copies. copies.items ≡ rows.now) }
{
    let mut copies = Vec::new(alloc);
    for row in rows {
        copies.push(row.copy(alloc)?)?;
    }
    Ok(copies)
}
