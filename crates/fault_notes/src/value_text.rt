//! The values of a deck as they are written.
use crate::deck_table::last_key;
use crate::keys::{front_of, without_blanks};

/// The value that a line gives to the last key of this path, as it is written there; `None` where the line gives none,
/// or one that goes on in further lines.
pub fn value_text<'a>(line: &'a [u8], path: &[u8]) -> Option<&'a [u8]> {
    let key = front_of(line, b'=');
    if !without_quote(key).ends_with(last_key(path)) {
        return None;
    }
    let value = without_blanks(line.get(key.len()..)?.get(1..)?);
    match value {
        [] | [b'[' | b'{', ..] | [b'"', b'"', b'"', ..] | [b'\'', b'\'', b'\'', ..] => None,
        [b'"', ..] => quoted(value, b'"'),
        [b'\'', ..] => quoted(value, b'\''),
        _ => Some(front_of(value, b'#').trim_ascii_end()),
    }
}

// The key without blanks and a quote at its end.
fn without_quote(key: &[u8]) -> &[u8] {
    match key.trim_ascii_end() {
        [front @ .., b'"' | b'\''] => front,
        key => key,
    }
}

// The front of the value from its quote to the next one.
fn quoted(value: &[u8], quote: u8) -> Option<&[u8]> {
    let inside = value.get(1..)?.iter().position(|byte| *byte == quote)?;
    value.get(..inside.saturating_add(2))
}
