//! Volume serials.
ghost use Rattle.std.specs.Prelude.{◌≡◌, MatchOption};
ghost use Rattle.dsn_mask.specs.Name.{IsVolser, volser_of};

use crate::byte_class::are_name_bytes;
use crate::text::Text;
use desk_common::MAX_VOLSER;
use std::cmp::Ordering;
use std::hash::{Hash, Hasher};
use std::marker::Model;

/// A volume serial: one to six letters, digits, `#`, `@` and `$`, in the order of the bytes.
#[derive(Clone, Copy)]
pub struct Volser {
    text: Text<MAX_VOLSER>,
}

impl Model for Volser {
    ghost use Rattle.std.specs.Prelude.{List, ℕ};
    ghost use Rattle.dsn_mask.specs.Name.{IsVolser};

    ghost Value = { List ℕ };

    ghost view = { λ s. s.text };

    ghost invariant = { λ s. IsVolser s.text };

    ghost inverse = { λ xs. record { text = xs } };
}

impl PartialEq for Volser {
    ghost use Rattle.std.specs.Prelude.{nat_eq};
    ghost use Rattle.std.specs.Cmp.Lexicographic.{pointwise};
    ghost use Rattle.std.specs.Cmp.Rules.{comparing};
    ghost use Rattle.std.proofs.Common.{rules};

    ghost eq = { pointwise nat_eq };

    ghost laws = { Prim.search (comparing, rules) };

    fn eq(&self, other: &Volser) -> bool {
        self.text.equals(&other.text)
    }
}

impl Eq for Volser {
    ghost use Rattle.std.specs.Cmp.Rules.{comparing};
    ghost use Rattle.std.proofs.Common.{rules};

    ghost laws = { Prim.search (comparing, rules) };
}

impl Hash for Volser {
    ghost use Rattle.std.specs.Prelude.{[], ◌∷◌};
    ghost use Rattle.std.specs.Cmp.Rules.{comparing};
    ghost use Rattle.std.proofs.Common.{rules};

    ghost hash_input = { λ text. text ∷ [] };

    ghost respects_eq = { Prim.search (comparing, rules) };

    fn hash<H: Hasher>(&self, state: &mut H) {
        state.write(self.bytes());
    }
}

impl Ord for Volser {
    ghost use Rattle.std.specs.Ordering.{nat_cmp};
    ghost use Rattle.std.specs.Cmp.Lexicographic.{slice_cmp};
    ghost use Rattle.std.specs.Cmp.Rules.{comparing};
    ghost use Rattle.std.proofs.Common.{rules};

    ghost cmp = { slice_cmp nat_cmp };

    ghost total = { Prim.search (comparing, rules) };

    ghost matches_partial_cmp = { Prim.search (comparing, rules) };

    ghost matches_eq = { Prim.search (comparing, rules) };

    fn cmp(&self, other: &Volser) -> Ordering {
        self.text.order(&other.text)
    }
}

impl PartialOrd for Volser {
    ghost use Rattle.std.specs.Cmp.{partial_order_from_own_ties};
    ghost use Rattle.std.specs.Ordering.{as_partial_cmp, nat_cmp};
    ghost use Rattle.std.specs.Cmp.Lexicographic.{slice_cmp};
    ghost use Rattle.std.specs.Cmp.Rules.{comparing};
    ghost use Rattle.std.proofs.Common.{rules};

    ghost partial_cmp = { as_partial_cmp (slice_cmp nat_cmp) };

    ghost laws = { partial_order_from_own_ties (Prim.search (comparing, rules))
        (Prim.search (comparing, rules)) };

    fn partial_cmp(&self, other: &Volser) -> Option<Ordering> {
        Some(self.cmp(other))
    }
}

impl Volser {
    /// None where the bytes are out of form.
    pub fn new(bytes: &[u8]) -> Option<Self>
        ensures value { result ≡ volser_of bytes.now }
        ensures exact { MatchOption result (IsVolser bytes.now → ⊥) (λ made. IsVolser bytes.now × (made ≡ bytes.now)) }
    {
        if bytes.is_empty() || bytes.len() > MAX_VOLSER || !are_name_bytes(bytes) {
            return None;
        }
        Some(Volser {
            text: Text::new(bytes),
        })
    }

    /// The bytes of the serial, 1 to 6.
    pub fn bytes(&self) -> &[u8]
        ensures bytes { result.now ≡ self.now }
        ensures form { IsVolser self.now }
    {
        self.text.bytes()
    }
}
