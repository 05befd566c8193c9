//! The last entries of a journal.
ghost use Rattle.std.specs.Prelude.{◌≡◌, IfOk, map};
ghost use Rattle.desk_pages.specs.Newest.{newest};

use crate::listing::MOST_SHOWN;
use sms_construct::Entry;
use std::alloc::{AllocError, Global};

/// The last entries of a journal, the last of all first, as many as a page shows.
pub fn newest<'a>(alloc: Global, journal: &'a [Entry]) -> Result<Vec<&'a Entry>, AllocError>
    ensures { IfOk result (λ found. map (λ entry. entry.now) found.items ≡ newest journal.entry.now) }
{
    let mut found = Vec::new(alloc);
    let mut left = journal.len();
    while left > 0 {
        if found.len() == MOST_SHOWN {
            return Ok(found);
        }
        left -= 1;
        found.push(&journal[left])?;
    }
    Ok(found)
}
