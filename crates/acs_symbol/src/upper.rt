//! A word or a name of a variable where it stands in a text.
ghost use Rattle.std.specs.Prelude.{◌≡◌, ◌≤◌, length};
ghost use Rattle.std.specs.Str.{str_to_ascii_uppercase};
ghost use Rattle.desk_common.specs.Limits.{most_word_bytes};

use acs_tree::Ident;
use std::marker::Model;

/// At most 64 bytes of a text, which are read with their letters in upper case. Nothing is copied.
#[derive(Drop)]
pub struct Upper<'a> {
    bytes: &'a [u8],
}

impl<'a> Model for Upper<'a> {
    ghost use Rattle.std.specs.Prelude.{List, ℕ, length, ◌≤◌};
    ghost use Rattle.std.specs.Str.{str_to_ascii_uppercase};
    ghost use Rattle.desk_common.specs.Limits.{most_word_bytes};

    ghost Value = { List ℕ };

    ghost view = { λ s. str_to_ascii_uppercase s.bytes.now };

    ghost invariant = { λ s. length s.bytes.now ≤ most_word_bytes };
}

impl<'a> Upper<'a> {
    /// The text of these bytes, whose letters may be small.
    pub fn new(bytes: &'a [u8]) -> Self
        requires { length bytes.now ≤ most_word_bytes }
        ensures { result ≡ str_to_ascii_uppercase bytes.now }
    {
        Upper { bytes }
    }

    /// The text as a value of its own.
    #[inline(never)]
    pub fn ident(&self) -> Ident
        ensures { result ≡ self.now }
    {
        Ident::upper(self.bytes)
    }
}
