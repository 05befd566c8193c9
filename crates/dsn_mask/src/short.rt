//! Short texts.
ghost use Rattle.std.specs.Prelude.{◌≡◌, [], MatchOption};
ghost use Rattle.dsn_mask.specs.Name.{IsShort, short_of};

use crate::byte_class::are_short_bytes;
use crate::text::Text;
use desk_common::MAX_VALUE;
use std::marker::Model;

/// A value of at most 44 printed bytes with no blank and no quote; the empty one is the null value.
#[derive(Clone, Copy)]
pub struct Short {
    pub(crate) text: Text<MAX_VALUE>,
}

impl Model for Short {
    ghost use Rattle.std.specs.Prelude.{List, ℕ};
    ghost use Rattle.dsn_mask.specs.Name.{IsShort};

    ghost Value = { List ℕ };

    ghost view = { λ s. s.text };

    ghost invariant = { λ s. IsShort s.text };

    ghost inverse = { λ xs. record { text = xs } };
}

impl PartialEq for Short {
    ghost use Rattle.std.specs.Prelude.{nat_eq};
    ghost use Rattle.std.specs.Cmp.Lexicographic.{pointwise};
    ghost use Rattle.std.specs.Cmp.Rules.{comparing};
    ghost use Rattle.std.proofs.Common.{rules};

    ghost eq = { pointwise nat_eq };

    ghost laws = { Prim.search (comparing, rules) };

    fn eq(&self, other: &Short) -> bool {
        self.text.equals(&other.text)
    }
}

impl Eq for Short {
    ghost use Rattle.std.specs.Cmp.Rules.{comparing};
    ghost use Rattle.std.proofs.Common.{rules};

    ghost laws = { Prim.search (comparing, rules) };
}

impl Short {
    /// The empty value.
    pub fn null() -> Self
        ensures { result ≡ [] }
    {
        Short {
            text: Text::new(b""),
        }
    }

    /// None where the bytes are out of form.
    pub fn new(bytes: &[u8]) -> Option<Self>
        ensures value { result ≡ short_of bytes.now }
        ensures exact { MatchOption result (IsShort bytes.now → ⊥) (λ made. IsShort bytes.now × (made ≡ bytes.now)) }
    {
        if bytes.len() > MAX_VALUE || !are_short_bytes(bytes) {
            return None;
        }
        Some(Short {
            text: Text::new(bytes),
        })
    }

    /// The bytes of the value, 0 to 44.
    pub fn bytes(&self) -> &[u8]
        ensures bytes { result.now ≡ self.now }
        ensures form { IsShort self.now }
    {
        self.text.bytes()
    }
}
