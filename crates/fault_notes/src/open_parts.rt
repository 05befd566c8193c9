//! The parts of a routine that are open at a token.
use crate::routine_text::RoutineText;
use std::alloc::{AllocError, Global};

/// A word that waits for its END, by the number of its token.
#[derive(Clone, Copy)]
pub struct OpenPart {
    pub word: &'static str,
    pub number: usize,
}

/// The parts that begin before this token and have no END before it, the innermost last.
pub fn open_parts(
    alloc: Global,
    routine: &RoutineText<'_>,
    number: usize,
) -> Result<Vec<OpenPart>, AllocError> {
    let mut open = Vec::new(alloc);
    let mut depth = 0usize;
    for at in 0..number {
        match routine.bytes(at) {
            b"(" => depth = depth.saturating_add(1),
            b")" => depth = depth.saturating_sub(1),
            _ if depth > 0 => (),
            _ if routine.is_word(at, b"END") => {
                let _ = open.pop();
            }
            _ => {
                if let Some(word) = opening_word(routine, at) {
                    open.push(OpenPart { word, number: at })?;
                }
            }
        }
    }
    Ok(open)
}

// The word that opens a part, if the token is one.
fn opening_word(routine: &RoutineText<'_>, at: usize) -> Option<&'static str> {
    if routine.is_word(at, b"DO") {
        Some("DO")
    } else if routine.is_word(at, b"SELECT") {
        Some("SELECT")
    } else if routine.is_word(at, b"PROC") {
        Some("PROC")
    } else {
        None
    }
}
