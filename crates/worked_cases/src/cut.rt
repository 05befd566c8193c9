//! How runs end whose input is cut.
use std::alloc::{AllocError, Global};

/// The runs whose input ends behind so many of its bytes, from the first of these numbers to the last, end so: with a
/// fault of the script and nothing written, or with status 0 and an output of which this is the last line.
#[derive(Drop)]
pub struct Cut {
    pub first: u64,
    pub last: u64,
    pub end: String,
}

/// Reads `FIRST to LAST END`.
pub fn read_cut(alloc: Global, text: &str) -> Result<Option<Cut>, AllocError> {
    let Some((first, behind)) = text.split_once(" to ") else {
        return Ok(None);
    };
    let Some((last, end)) = behind.split_once(" ") else {
        return Ok(None);
    };
    match (first.parse::<u64>(), last.parse::<u64>()) {
        (Ok(first), Ok(last)) => {
            let end = format!(in alloc; "{end}\n")?;
            Ok(Some(Cut { first, last, end }))
        }
        _ => Ok(None),
    }
}
