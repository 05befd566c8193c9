//! The keys of a deck, line by line.
use std::alloc::{AllocError, Global};

/// What is known of a deck up to a line: the table whose keys follow, and the quote of a text over several lines
/// that is open.
#[derive(Drop)]
pub struct Keys {
    table: Vec<u8>,
    open: Option<u8>,
}

impl Keys {
    /// At the front of a deck.
    pub fn new(alloc: Global) -> Self {
        Keys {
            table: Vec::new(alloc),
            open: None,
        }
    }

    /// The keys that lead to what the next line is about, joined by full stops.
    pub fn next(&mut self, alloc: Global, line: &[u8]) -> Result<Option<Vec<u8>>, AllocError> {
        if let Some(quote) = self.open {
            if has_three(line, quote) {
                self.open = None;
            }
            return Ok(None);
        }
        match without_blanks(line) {
            [] | [b'#', ..] => Ok(None),
            [b'[', header @ ..] => self.enter(alloc, header).map(Some),
            line => self.give(alloc, line).map(Some),
        }
    }

    // The keys of the table in this header follow.
    fn enter(&mut self, alloc: Global, header: &[u8]) -> Result<Vec<u8>, AllocError> {
        let mut table = Vec::new(alloc);
        push_key(&mut table, front_of(header, b']'))?;
        self.table = table.as_slice().to_vec(alloc)?;
        Ok(table)
    }

    // A key of the table with its value.
    fn give(&mut self, alloc: Global, line: &[u8]) -> Result<Vec<u8>, AllocError> {
        let key = front_of(line, b'=');
        self.open = open_quote(line.get(key.len()..).unwrap_or(&[]));
        let mut full = self.table.as_slice().to_vec(alloc)?;
        if !full.is_empty() {
            full.push(b'.')?;
        }
        push_key(&mut full, key)?;
        Ok(full)
    }
}

/// What stands before the first such byte.
pub fn front_of(text: &[u8], end: u8) -> &[u8] {
    match text.iter().position(|byte| *byte == end) {
        Some(at) => &text[..at],
        None => text,
    }
}

// Puts a key behind others, without its blanks, quotes and brackets.
fn push_key(keys: &mut Vec<u8>, key: &[u8]) -> Result<(), AllocError> {
    for byte in key {
        if !matches!(*byte, b' ' | b'\t' | b'"' | b'\'' | b'[') {
            keys.push(*byte)?;
        }
    }
    Ok(())
}

// The quote of a text over several lines that begins behind the equals sign and doesn't end in its line.
fn open_quote(value: &[u8]) -> Option<u8> {
    match without_blanks(value.get(1..).unwrap_or(&[])) {
        [b'"', b'"', b'"', text @ ..] if !has_three(text, b'"') => Some(b'"'),
        [b'\'', b'\'', b'\'', text @ ..] if !has_three(text, b'\'') => Some(b'\''),
        _ => None,
    }
}

// Whether the quote stands three times on end.
fn has_three(text: &[u8], quote: u8) -> bool {
    let mut count = 0usize;
    for byte in text {
        count = if *byte == quote {
            count.saturating_add(1)
        } else {
            0
        };
        if count == 3 {
            return true;
        }
    }
    false
}

/// The text without the blanks at its front.
pub fn without_blanks(text: &[u8]) -> &[u8] {
    match text.iter().position(|byte| !matches!(*byte, b' ' | b'\t')) {
        Some(at) => &text[at..],
        None => &[],
    }
}
