//! What an engine holds under a prefix.
ghost use Rattle.std.specs.Prelude.{◌≡◌, IfOk};

use crate::guard::Guard;
use crate::row::{Rows, copied_rows};
use desk_common::Items;
use std::alloc::{AllocError, Global};

/// The guard of a prefix, and the rows under it.
#[derive(Drop)]
pub struct Contents {
    pub guard: Guard,
    pub rows: Rows,
}

impl Contents {
    /// The same contents, or want of memory.
    pub fn copy(&self, alloc: Global) -> Result<Self, AllocError>
        ensures { IfOk result (λ copy. copy ≡ self.now) }
    {
        Ok(Contents {
            guard: self.guard,
            rows: Items::from_vec(copied_rows(alloc, self.rows.as_slice())?),
        })
    }
}
