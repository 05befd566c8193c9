//! Places in a text.
ghost use Rattle.std.specs.Prelude.{◌≡◌, ◌+◌, ◌<◌, ◌^◌, length};
ghost use Rattle.acs_places.specs.Places.{behind_all, behind_byte, first_place};

/// A place in a text: its line, and its column in bytes, both from 1.
#[derive(Clone, Copy, Debug, PartialEq, Eq)]
pub struct Place {
    pub line: u64,
    pub column: u64,
}

impl Place {
    /// The place of a text's first byte.
    pub fn first() -> Self
        ensures { result ≡ first_place }
    {
        Place { line: 1, column: 1 }
    }

    /// The place behind these bytes, of which the first stands at this one.
    #[tactic(auto, using(crate::proofs::PlaceLemmas::next_line, crate::proofs::PlaceLemmas::next_column))]
    pub fn behind(self, bytes: &[u8]) -> Self
        requires lines { self.line + length bytes.now < 2 ^ 63 }
        requires columns { self.column + length bytes.now < 2 ^ 63 }
        ensures { result ≡ behind_all self bytes.now }
    {
        let mut place = self;
        for byte in bytes {
            place = place.behind_byte(*byte);
        }
        place
    }

    fn behind_byte(self, byte: u8) -> Self
        requires lines { self.line < 2 ^ 63 }
        requires columns { self.column < 2 ^ 63 }
        ensures { result ≡ behind_byte self byte }
    {
        if byte == b'\n' {
            Place {
                line: self.line + 1,
                column: 1,
            }
        } else {
            Place {
                line: self.line,
                column: self.column + 1,
            }
        }
    }
}
