//! The lines of a deck that a fault is about.
ghost use Rattle.std.specs.Prelude.{◌<◌, length};

use crate::keys::{Keys, without_blanks};
use std::alloc::{AllocError, Global};

/// The offset of the first line about the key at this path, or about the nearest table above it.
pub fn find_path(alloc: Global, deck: &[u8], path: &[u8]) -> Result<Option<usize>, AllocError> {
    let mut front = path;
    while !front.is_empty() {
        let found = find_key(alloc, deck, front)?;
        if found.is_some() {
            return Ok(found);
        }
        front = parent_of(front);
    }
    Ok(None)
}

// The path without its last key.
fn parent_of(path: &[u8]) -> &[u8]
    requires { 0 < length path.now }
    ensures { length result.now < length path.now }
{
    match path.iter().rposition(|byte| *byte == b'.') {
        Some(at) => &path[..at],
        None => &[],
    }
}

// The offset of the first line about this path.
fn find_key(alloc: Global, deck: &[u8], path: &[u8]) -> Result<Option<usize>, AllocError> {
    let mut keys = Keys::new(alloc);
    let mut rest = deck;
    while !rest.is_empty() {
        let (line, behind) = first_line(rest);
        let full = keys.next(alloc, line)?;
        if is_some_within(&full, path) {
            return Ok(Some(offset_in(deck, rest)));
        }
        rest = behind;
    }
    Ok(None)
}

/// The offset of the first line about this volume in a second storage group.
pub fn find_second(alloc: Global, deck: &[u8], volser: &[u8]) -> Result<Option<usize>, AllocError> {
    let mut keys = Keys::new(alloc);
    let mut first = Vec::new(alloc);
    let mut rest = deck;
    while !rest.is_empty() {
        let (line, behind) = first_line(rest);
        let full = keys.next(alloc, line)?;
        let group = group_of(&full, volser);
        if first.is_empty() {
            first.extend_from_slice(group)?;
        } else if !group.is_empty() && group != first.as_slice() {
            return Ok(Some(offset_in(deck, rest)));
        }
        rest = behind;
    }
    Ok(None)
}

// The offset of the first byte of the rest that is no blank.
fn offset_in(deck: &[u8], rest: &[u8]) -> usize {
    deck.len().saturating_sub(without_blanks(rest).len())
}

// The first line, and what is behind its line end.
fn first_line(text: &[u8]) -> (&[u8], &[u8])
    requires { 0 < length text.now }
    ensures { length result.1.now < length text.now }
{
    match text.iter().position(|byte| *byte == b'\n') {
        Some(at) => (&text[..at], &text[at + 1..]),
        None => (text, &[]),
    }
}

// Whether the key is the one at the path, or lies in it.
fn is_some_within(key: &Option<Vec<u8>>, path: &[u8]) -> bool {
    match key {
        Some(key) => key.starts_with(path) && matches!(key.get(path.len()), None | Some(b'.')),
        None => false,
    }
}

// The storage group of the volume with this serial, where the key lies in it; else empty.
fn group_of<'a>(key: &'a Option<Vec<u8>>, volser: &[u8]) -> &'a [u8] {
    let Some(key) = key else {
        return &[];
    };
    let mut parts = key.split(|byte| *byte == b'.');
    match (parts.next(), parts.next(), parts.next(), parts.next()) {
        (Some(b"storgroup"), Some(group), Some(b"volume"), Some(volume)) if volume == volser => {
            group
        }
        _ => &[],
    }
}
