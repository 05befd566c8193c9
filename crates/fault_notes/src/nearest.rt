//! The word of a list that a wrong one was probably meant to be.
use std::alloc::{AllocError, Global};
use strsim::levenshtein;

// Words are near where so many letters at most are wrong, missing or too many.
const MOST_EDITS: usize = 3;

/// The word of the list that is nearest to this one, if any is near: fewer than half of its letters are wrong.
pub fn nearest(
    alloc: Global,
    word: &str,
    list: &[&'static str],
) -> Result<Option<&'static str>, AllocError> {
    let mut best = None;
    let mut fewest = MOST_EDITS.min(word.len() / 2).saturating_add(1);
    for other in list {
        let edits = levenshtein(alloc, word, other)?;
        if edits < fewest {
            fewest = edits;
            best = Some(*other);
        }
    }
    Ok(best)
}

/// The words of a list with commas between, and this one before the last.
pub fn listed(
    alloc: Global,
    list: &[&'static str],
    before_last: &str,
) -> Result<String, AllocError> {
    let mut text = String::new(alloc);
    for (at, word) in list.iter().enumerate() {
        if at > 0 {
            let is_last = at.saturating_add(1) == list.len();
            text.push_str(if is_last { before_last } else { ", " })?;
        }
        text.push_str(word)?;
    }
    Ok(text)
}
