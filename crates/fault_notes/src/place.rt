//! Places of a text as a person counts them.
ghost use Rattle.std.specs.Prelude.{◌≡◌, ◌≤◌, ◌+◌, count_by, length, take};
ghost use Rattle.fault_notes.specs.Inner.Places.{column_behind, is_line_feed, line_behind};

/// A place of a text: its line and its column, both from 1, and the bytes of its line.
#[derive(Clone, Copy)]
pub struct Place<'a> {
    pub line: usize,
    pub column: usize,
    pub text: &'a [u8],
}

/// The place of the byte at this offset, and behind the last byte that of the end.
pub fn place_at(text: &[u8], at: usize) -> Place<'_>
    ensures line { result.line ≡ line_behind (take at text.entry.now) }
    ensures column { result.column ≡ column_behind (take at text.entry.now) }
{
    let (before, behind) = text.split_at(at.min(text.len()));
    let column = column_behind(before);
    let from = before.len() + 1 - column;
    let to = before.len() + line_len(behind);
    Place {
        line: line_feeds(before) + 1,
        column,
        text: &text[from..to],
    }
}

/// The front of this line, which counts from 1.
pub fn line_at(text: &[u8], line: usize) -> Place<'_>
    ensures { (result.line ≡ line) × (result.column ≡ 1) }
{
    let mut lines = text.split(|byte| *byte == b'\n');
    let text = lines.nth(line.saturating_sub(1)).unwrap_or(&[]);
    Place {
        line,
        column: 1,
        text: &text[..line_len(text)],
    }
}

/// The bytes of this line, which counts from 1, without its line end: an LF, and a CR right before that.
pub fn line_bytes(text: &[u8], line: usize) -> &[u8] {
    let mut lines = text.split(|byte| *byte == b'\n');
    let bytes = lines.nth(line.saturating_sub(1)).unwrap_or(&[]);
    match (bytes, lines.next()) {
        ([front @ .., b'\r'], Some(_)) => front,
        _ => bytes,
    }
}

// The number of line ends.
fn line_feeds(text: &[u8]) -> usize
    ensures count { result ≡ count_by is_line_feed text.now }
    ensures within { result ≤ length text.now }
{
    text.iter().filter(|byte| **byte == b'\n').count()
}

// The column of the byte that follows the text.
fn column_behind(text: &[u8]) -> usize
    ensures column { result ≡ column_behind text.now }
    ensures first { 1 ≤ result }
    ensures within { result ≤ length text.now + 1 }
{
    let mut column = 1usize;
    for byte in text {
        column = if *byte == b'\n' { 1 } else { column + 1 };
    }
    column
}

// The number of bytes before the first LF or CR.
fn line_len(text: &[u8]) -> usize
    ensures { result ≤ length text.now }
{
    match text.iter().position(|byte| matches!(*byte, b'\n' | b'\r')) {
        Some(at) => at,
        None => text.len(),
    }
}
