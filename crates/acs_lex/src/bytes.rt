//! What each byte is good for (docs/manual/acs-language.md, Bytes and Tokens).
ghost use Rattle.std.specs.Prelude.{◌≡◌};
ghost use Rattle.std.specs.Char.{is_ascii_alphanumeric};
ghost use Rattle.acs_lex.specs.Lexical.{is_blank, is_line_end, is_name_byte, is_word_byte, is_quotable, is_single_sign};
ghost use Rattle.acs_lex.specs.Lexical.{is_double_sign};

pub fn is_line_end(byte: u8) -> bool
    ensures { result ≡ is_line_end byte }
{
    matches!(byte, b'\n' | b'\r')
}

/// Whether it is a space, a tab or an end of a line.
pub fn is_blank(byte: u8) -> bool
    ensures { result ≡ is_blank byte }
{
    matches!(byte, b' ' | b'\t' | b'\n' | b'\r')
}

// Most are letters, so these are told first.
fn is_letter_or_digit(byte: u8) -> bool
    ensures { result ≡ is_ascii_alphanumeric byte }
{
    byte.is_ascii_alphabetic() || byte.is_ascii_digit()
}

pub fn is_name_byte(byte: u8) -> bool
    ensures { result ≡ is_name_byte byte }
{
    is_letter_or_digit(byte) || byte == b'_'
}

pub fn is_word_byte(byte: u8) -> bool
    ensures { result ≡ is_word_byte byte }
{
    is_letter_or_digit(byte)
        || matches!(byte, b'#' | b'@' | b'$' | b'-' | b'.' | b'_' | b'%' | b'*')
}

/// Whether it may stand between quotes.
pub fn is_quotable(byte: u8) -> bool
    ensures { result ≡ is_quotable byte }
{
    matches!(byte, b' '..=b'~') && byte != b'\''
}

pub fn is_single_sign(byte: u8) -> bool
    ensures { result ≡ is_single_sign byte }
{
    matches!(byte, b'=' | b'>' | b'<' | b'|' | b'(' | b')' | b',')
}

pub fn is_double_sign(first: u8, second: u8) -> bool
    ensures { result ≡ is_double_sign first second }
{
    match first {
        b'&' => second == b'&',
        b'^' => matches!(second, b'=' | b'>' | b'<'),
        b'>' | b'<' => second == b'=',
        _ => false,
    }
}
