//! Strings of JSON.
ghost use Rattle.std.specs.Prelude.{◌≡◌, ◌<◌, ◌≤◌, ◌++◌, ◌∷◌, [], ℕ, IsTrue, OnOk, length, slice_index, take};
ghost use Rattle.std.specs.Char.{digit_char};
ghost use Rattle.json.specs.Print.{escape, escape_byte, escape_letter, quoted};

use std::alloc::AllocError;

/// Puts a text as a string behind another text.
pub fn push_quoted(text: &mut Vec<u8>, bytes: &[u8]) -> Result<(), AllocError>
    ensures { OnOk result (text.new.items ≡ text.old.items ++ quoted bytes.now) }
{
    text.push(b'"')?;
    push_escaped(text, bytes)?;
    text.push(b'"')?;
    Ok(())
}

fn push_escaped(text: &mut Vec<u8>, bytes: &[u8]) -> Result<(), AllocError>
    ensures { OnOk result (text.new.items ≡ text.old.items ++ escape bytes.now) }
{
    let count = plain_len(bytes);
    text.extend_from_slice(&bytes[..count])?;
    let mut rest = &bytes[count..];
    while let [byte, others @ ..] = rest {
        push_byte(text, *byte)?;
        rest = others;
    }
    Ok(())
}

// The number of bytes at the front that stand for themselves.
fn plain_len(bytes: &[u8]) -> usize
    ensures within { result ≤ length bytes.now }
    ensures plain { (k : ℕ) → k < result → escape_byte (slice_index bytes.now k) ≡ slice_index bytes.now k ∷ [] }
{
    for (at, byte) in bytes.iter().enumerate() {
        if !is_plain(*byte) {
            return at;
        }
    }
    bytes.len()
}

// Whether the byte stands for itself. Letters in capitals, digits and most signs take one test.
fn is_plain(byte: u8) -> bool
    ensures { IsTrue result → escape_byte byte ≡ byte ∷ [] }
{
    if byte > b'"' && byte < b'\\' {
        return true;
    }
    if byte < 0x20 {
        return false;
    }
    if byte == b'"' {
        return false;
    }
    if byte == b'\\' {
        return false;
    }
    true
}

fn push_byte(text: &mut Vec<u8>, byte: u8) -> Result<(), AllocError>
    ensures { OnOk result (text.new.items ≡ text.old.items ++ escape_byte byte) }
{
    let (escape, count) = escape_of(byte);
    text.extend_from_slice(&escape[..count])
}

fn escape_of(byte: u8) -> ([u8; 6], usize)
    ensures value { take result.1 result.0 ≡ escape_byte byte }
    ensures bound { result.1 ≤ 6 }
{
    let letter = letter(byte);
    if letter > 0 {
        return ([b'\\', letter, 0, 0, 0, 0], 2);
    }
    if byte < 0x20 {
        return ([b'\\', b'u', b'0', b'0', hex(byte / 16), hex(byte % 16)], 6);
    }
    ([byte, 0, 0, 0, 0, 0], 1)
}

fn letter(byte: u8) -> u8
    ensures { result ≡ escape_letter byte }
{
    match byte {
        b'"' | b'\\' => byte,
        8 => b'b',
        12 => b'f',
        b'\n' => b'n',
        b'\r' => b'r',
        b'\t' => b't',
        _ => 0,
    }
}

fn hex(digit: u8) -> u8
    requires { digit < 16 }
    ensures { result ≡ digit_char digit }
{
    if digit < 10 {
        b'0' + digit
    } else {
        b'a' - 10 + digit
    }
}
