//! Parts of a text.
ghost use Rattle.std.specs.Prelude.{◌≡◌, ◌≢◌, ◌==◌, ◌≤◌, ◌<◌, ◌∷◌, [], ℕ, IfSome, bytes_eq, length, position};
ghost use Rattle.std.specs.Prelude.{slice_index};
ghost use Rattle.std.specs.Option.{option_copied};
ghost use Rattle.desk_common.specs.Bytes.{comma};
ghost use Rattle.desk_common.specs.Words.{pieces_of};
ghost use Rattle.sms_script.specs.Parts.{before_end, in_call, pieces_behind};

use desk_common::are_same;
use memchr::memchr;
use sms_construct::{behind_front, in_parentheses};

/// Whether the text is this word. A word whose length is known where this is called costs one compare a byte.
#[inline(always)]
pub fn is_word(text: &[u8], word: &[u8]) -> bool
    ensures { result ≡ bytes_eq text.now word.now }
{
    are_same(text, word)
}

/// What is before this end, if it stands there.
pub fn before_end<'a>(end: &[u8], bytes: &'a [u8]) -> Option<&'a [u8]>
    ensures { option_copied result ≡ before_end end.now bytes.entry.now }
{
    if bytes.len() < end.len() || &bytes[bytes.len() - end.len()..] != end {
        return None;
    }
    Some(&bytes[..bytes.len() - end.len()])
}

/// What stands in parentheses behind a word, if it does.
pub fn in_call<'a>(word: &[u8], bytes: &'a [u8]) -> Option<&'a [u8]>
    ensures { option_copied result ≡ in_call word.now bytes.entry.now }
{
    in_parentheses(behind_front(word, bytes)?)
}

/// The place of the first such byte, if there is one.
pub fn place_of(byte: u8, bytes: &[u8]) -> Option<usize>
    ensures place { result ≡ position (λ other. other == byte) bytes.now }
    ensures within { IfSome result (λ place. place < length bytes.now) }
{
    bytes.iter().position(|other| *other == byte)
}

/// The piece before the first comma, and what is behind that, if there is one.
pub fn first_piece(text: &[u8]) -> (&[u8], Option<&[u8]>)
    ensures pieces { pieces_of (comma ∷ []) text.entry.now ≡ result.0.now ∷ pieces_behind (option_copied result.1) }
    ensures shorter { IfSome result.1 (λ rest. length rest.now < length text.entry.now) }
{
    let count = count_before(b',', text);
    if count < text.len() {
        (&text[..count], Some(&text[count + 1..]))
    } else {
        (text, None)
    }
}

/// The number of bytes before the first such byte; of all where there is none. `bytes_before` of desk_common says the
/// same of a walk byte by byte, which is right for short texts; lines and lists may be long, and memchr goes over many
/// bytes at a time.
pub fn count_before(byte: u8, text: &[u8]) -> usize
    ensures within { result ≤ length text.now }
    ensures before { (k : ℕ) → k < result → slice_index text.now k ≢ byte }
    ensures found { result < length text.now → slice_index text.now result ≡ byte }
{
    memchr(byte, text).unwrap_or(text.len())
}
