//! Bodies of one member.
ghost use Rattle.std.specs.Prelude.{◌≡◌, ◌<◌, ◌++◌, ◌∷◌, [], IfSome, IsTrue};
ghost use Rattle.std.specs.Str.{IsAscii};
ghost use Rattle.json.specs.Print.{escape, escape_byte};
ghost use Rattle.serde_json.specs.Data.{object, member, no_members, string};
ghost use Rattle.serde_json.specs.Written.{compact_text};

/// The key and the text of an object that has one member and no blanks, where each byte of the two is of ASCII and
/// stands for itself.
pub fn plain_member(body: &[u8]) -> Option<(&[u8], &[u8])>
    ensures member { IfSome result (λ parts.
        body.entry.now ≡ compact_text (object (member parts.0.now (string parts.1.now) no_members))) }
    ensures ascii { IfSome result (λ parts. IsAscii body.entry.now) }
{
    let [b'{', b'"', rest @ ..] = body else {
        return None;
    };
    let (key, rest) = plain_string(rest)?;
    let [b':', b'"', rest @ ..] = rest else {
        return None;
    };
    let (text, rest) = plain_string(rest)?;
    let [b'}'] = rest else {
        return None;
    };
    Some((key, text))
}

// The bytes before the closing quote, each of ASCII and standing for itself, and what is behind that.
fn plain_string(text: &[u8]) -> Option<(&[u8], &[u8])>
    ensures cut { IfSome result (λ parts. text.entry.now ≡ escape parts.0.now ++ 34 ∷ parts.1.now) }
    ensures ascii { IfSome result (λ parts. IsAscii parts.1.now → IsAscii text.entry.now) }
{
    for (at, byte) in text.iter().enumerate() {
        if *byte == b'"' {
            return Some((&text[..at], &text[at + 1..]));
        }
        if !is_plain(*byte) {
            return None;
        }
    }
    None
}

// Whether the byte is of ASCII and stands for itself in a string.
fn is_plain(byte: u8) -> bool
    ensures itself { IsTrue result → escape_byte byte ≡ byte ∷ [] }
    ensures ascii { IsTrue result → byte < 128 }
{
    if byte < 0x20 {
        return false;
    }
    if byte == b'"' {
        return false;
    }
    if byte == b'\\' {
        return false;
    }
    byte < 128
}
