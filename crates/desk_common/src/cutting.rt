//! A text cut at bytes that part it.
ghost use Rattle.std.specs.Prelude.{◌≡◌, ◌≢◌, ◌≤◌, ◌<◌, ◌∷◌, [], ◌++◌, ℕ, length, slice_index, IfSome, MatchOption};
ghost use Rattle.desk_common.specs.Words.{without_empty, words_of};

/// The first word of the text, whose words this byte parts, and the bytes behind it. One walk up to the word's end.
pub fn next_word(blank: u8, text: &[u8]) -> Option<(&[u8], &[u8])>
    ensures found { MatchOption result (words_of (blank ∷ []) text.entry.now ≡ [])
        (λ found. words_of (blank ∷ []) text.entry.now ≡ found.0.now ∷ words_of (blank ∷ []) found.1.now) }
    ensures shorter { IfSome result (λ found. length found.1.now < length text.entry.now) }
{
    let mut rest = text;
    while !rest.is_empty() {
        let (piece, behind) = first_piece(blank, rest);
        if !piece.is_empty() {
            return Some((piece, behind));
        }
        rest = behind;
    }
    None
}

// The bytes before the first blank, and those behind it.
fn first_piece(blank: u8, text: &[u8]) -> (&[u8], &[u8])
    requires { 0 < length text.now }
    ensures words { words_of (blank ∷ []) text.entry.now ≡
        without_empty (result.0.now ∷ []) ++ words_of (blank ∷ []) result.1.now }
    ensures shorter { length result.1.now < length text.entry.now }
{
    let count = bytes_before(blank, text);
    if count < text.len() {
        (&text[..count], &text[count + 1..])
    } else {
        (text, &[])
    }
}

/// How many bytes stand before the first one of this value: all, where there is none.
pub fn bytes_before(value: u8, text: &[u8]) -> usize
    ensures within { result ≤ length text.now }
    ensures before { (k : ℕ) → k < result → slice_index text.now k ≢ value }
    ensures found { result < length text.now → slice_index text.now result ≡ value }
{
    for (at, byte) in text.iter().enumerate() {
        if *byte == value {
            return at;
        }
    }
    text.len()
}
