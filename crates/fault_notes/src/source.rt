//! The texts of a deck's routines.
use crate::finding::find_path;
use crate::keys::without_blanks;
use acs_tree::Kind;
use sms_construct::key_of;
use std::alloc::{AllocError, Global};
use toml::Table;

/// The text of the routine of a kind.
pub fn source_of(top: &Table, kind: Kind) -> &str {
    let Some(routines) = top.get("routine") else {
        return "";
    };
    match routines.get(key_of(kind)) {
        Some(source) => source.as_str().unwrap_or(""),
        None => "",
    }
}

/// Where the text of the routine of a kind stands in the deck, if it stands there as it is.
pub fn find_source(
    alloc: Global,
    deck: &[u8],
    kind: Kind,
    text: &[u8],
) -> Result<Option<usize>, AllocError> {
    let path = format!(in alloc; "routine.{}", key_of(kind))?;
    let Some(at) = find_path(alloc, deck, path.as_bytes())? else {
        return Ok(None);
    };
    let Some(behind) = quoted(deck.get(at..).unwrap_or(&[]), key_of(kind)) else {
        return Ok(None);
    };
    if behind.starts_with(text) {
        Ok(Some(deck.len().saturating_sub(behind.len())))
    } else {
        Ok(None)
    }
}

// What is behind the quotes that follow the first equals sign, if the key stands before that.
fn quoted<'a>(line: &'a [u8], key: &str) -> Option<&'a [u8]> {
    let at = line.iter().position(|byte| *byte == b'=')?;
    if !ends_with_key(&line[..at], key) {
        return None;
    }
    match without_blanks(&line[at + 1..]) {
        [b'"', b'"', b'"', text @ ..] | [b'\'', b'\'', b'\'', text @ ..] => {
            Some(without_line_end(text))
        }
        [b'"', text @ ..] | [b'\'', text @ ..] => Some(text),
        _ => None,
    }
}

// Whether the bytes before an equals sign end with this key, which may stand in quotes.
fn ends_with_key(before: &[u8], key: &str) -> bool {
    let before = before.trim_ascii_end();
    let before = match before {
        [front @ .., b'"' | b'\''] => front,
        _ => before,
    };
    before.ends_with(key.as_bytes())
}

fn without_line_end(text: &[u8]) -> &[u8] {
    match text {
        [b'\n', text @ ..] | [b'\r', b'\n', text @ ..] => text,
        _ => text,
    }
}
