//! The lines of a text.
ghost use Rattle.std.specs.Prelude.{◌≡◌, ◌<◌, ◌∷◌, ◌++◌, length};
ghost use Rattle.desk_common.specs.Words.{begins_with_star};
ghost use Rattle.sms_script.specs.Lines.{is_blank, is_block_end, is_skipped, lines_of, text_of_line};

use crate::parts::{count_before, is_word};
use sms_construct::before_last;

/// The first line with its line end, and what is behind it.
pub fn first_line(text: &[u8]) -> (&[u8], &[u8])
    requires { 0 < length text.now }
    ensures lines { lines_of text.now ≡ result.0.now ∷ lines_of result.1.now }
    ensures parts { text.now ≡ result.0.now ++ result.1.now }
    ensures shorter { length result.1.now < length text.now }
{
    let count = count_before(b'\n', text);
    if count < text.len() {
        (&text[..count + 1], &text[count + 1..])
    } else {
        (text, &[])
    }
}

/// The line without its line end.
pub fn line_text(line: &[u8]) -> &[u8]
    ensures { result.now ≡ text_of_line line.entry.now }
{
    let Some(text) = before_last(b'\n', line) else {
        return line;
    };
    before_last(b'\r', text).unwrap_or(text)
}

/// A blank line or a comment.
pub fn is_skipped(text: &[u8]) -> bool
    ensures { result ≡ is_skipped text.now }
{
    is_comment(text) || is_blank(text)
}

// The first byte is an asterisk.
fn is_comment(text: &[u8]) -> bool
    ensures { result ≡ begins_with_star text.now }
{
    matches!(text, [b'*', ..])
}

// Only spaces, or nothing.
fn is_blank(text: &[u8]) -> bool
    ensures { result ≡ is_blank text.now }
{
    text.iter().all(|byte| *byte == b' ')
}

/// The line that ends a deck block.
pub fn is_block_end(line: &[u8]) -> bool
    ensures { result ≡ is_block_end line.now }
{
    is_word(line_text(line), b"./END")
}
