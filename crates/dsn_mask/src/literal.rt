//! Literals.
ghost use Rattle.std.specs.Prelude.{◌≡◌, MatchOption};
ghost use Rattle.dsn_mask.specs.Name.{IsLiteral, literal_of};

use crate::byte_class::are_literal_bytes;
use crate::text::Text;
use desk_common::MAX_LITERAL;
use std::marker::Model;

/// A literal: at most 110 printed bytes or blanks, none a quote.
#[derive(Clone, Copy)]
pub struct Lit {
    text: Text<MAX_LITERAL>,
}

impl Model for Lit {
    ghost use Rattle.std.specs.Prelude.{List, ℕ};
    ghost use Rattle.dsn_mask.specs.Name.{IsLiteral};

    ghost Value = { List ℕ };

    ghost view = { λ s. s.text };

    ghost invariant = { λ s. IsLiteral s.text };

    ghost inverse = { λ xs. record { text = xs } };
}

impl PartialEq for Lit {
    ghost use Rattle.std.specs.Prelude.{nat_eq};
    ghost use Rattle.std.specs.Cmp.Lexicographic.{pointwise};
    ghost use Rattle.std.specs.Cmp.Rules.{comparing};
    ghost use Rattle.std.proofs.Common.{rules};

    ghost eq = { pointwise nat_eq };

    ghost laws = { Prim.search (comparing, rules) };

    fn eq(&self, other: &Lit) -> bool {
        self.bytes() == other.bytes()
    }
}

impl Eq for Lit {
    ghost use Rattle.std.specs.Cmp.Rules.{comparing};
    ghost use Rattle.std.proofs.Common.{rules};

    ghost laws = { Prim.search (comparing, rules) };
}

impl Lit {
    /// None where the bytes are out of form.
    pub fn new(bytes: &[u8]) -> Option<Self>
        ensures value { result ≡ literal_of bytes.now }
        ensures exact { MatchOption result (IsLiteral bytes.now → ⊥)
            (λ made. IsLiteral bytes.now × (made ≡ bytes.now)) }
    {
        if bytes.len() > MAX_LITERAL || !are_literal_bytes(bytes) {
            return None;
        }
        Some(Lit {
            text: Text::new(bytes),
        })
    }

    /// The bytes between the quotes, 0 to 110.
    pub fn bytes(&self) -> &[u8]
        ensures bytes { result.now ≡ self.now }
        ensures form { IsLiteral self.now }
    {
        self.text.bytes()
    }
}
