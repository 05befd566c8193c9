//! Simple masks.
ghost use Rattle.std.specs.Prelude.{◌≡◌, ◌↔◌, IsTrue, Err, MatchResult};
ghost use Rattle.std.specs.Result.{result_ok};
ghost use Rattle.dsn_mask.specs.Mask.{SimpleFits};
ghost use Rattle.dsn_mask.specs.MaskFault.{IsFirstSimpleFault};
ghost use Rattle.dsn_mask.specs.MaskText.{IsSimple, simple_of};
ghost use Rattle.dsn_mask.specs.MaskTest.{simple_fits};

use crate::mask_fault::first_fault;
use crate::piece::piece_fits;
use crate::text::Text;
use crate::{MaskErr, Short};
use desk_common::MAX_WORD;
use std::marker::Model;

/// A simple mask: one piece over a whole value, in which a full stop stands for itself
/// (docs/manual/acs-language.md, "Masks").
#[derive(Clone, Copy)]
pub struct Simple {
    text: Text<MAX_WORD>,
}

impl Model for Simple {
    ghost use Rattle.std.specs.Prelude.{List, ℕ};
    ghost use Rattle.dsn_mask.specs.MaskText.{IsSimple};

    ghost Value = { List ℕ };

    ghost view = { λ s. s.text };

    ghost invariant = { λ s. IsSimple s.text };

    ghost inverse = { λ xs. record { text = xs } };
}

impl PartialEq for Simple {
    ghost use Rattle.std.specs.Prelude.{nat_eq};
    ghost use Rattle.std.specs.Cmp.Lexicographic.{pointwise};
    ghost use Rattle.std.specs.Cmp.Rules.{comparing};
    ghost use Rattle.std.proofs.Common.{rules};

    ghost eq = { pointwise nat_eq };

    ghost laws = { Prim.search (comparing, rules) };

    fn eq(&self, other: &Simple) -> bool {
        self.bytes() == other.bytes()
    }
}

impl Eq for Simple {
    ghost use Rattle.std.specs.Cmp.Rules.{comparing};
    ghost use Rattle.std.proofs.Common.{rules};

    ghost laws = { Prim.search (comparing, rules) };
}

impl Simple {
    /// The mask that the bytes spell, or their first fault.
    pub fn parse(bytes: &[u8]) -> Result<Self, MaskErr>
        ensures value { result_ok result ≡ simple_of bytes.now }
        ensures exact { MatchResult result (λ made. IsSimple bytes.now × (made ≡ bytes.now))
            (λ err. (IsSimple bytes.now → ⊥) × IsFirstSimpleFault bytes.now err) }
        ensures refused { (err : MaskErr) → IsFirstSimpleFault bytes.now err → result ≡ Err err }
    {
        match first_fault(bytes, false) {
            Some(fault) => Err(fault),
            None => Ok(Simple {
                text: Text::new(bytes),
            }),
        }
    }

    /// The bytes of the mask, 1 to 64.
    pub fn bytes(&self) -> &[u8]
        ensures bytes { result.now ≡ self.now }
        ensures form { IsSimple self.now }
    {
        self.text.bytes()
    }

    /// Whether the value fits. Where nothing fits any more the match goes on behind the last `*`, one byte
    /// later, and never back to an earlier one. So with s of them p bytes against q take at most
    /// (s + 1) * (p + 1) * (q + 1) turns.
    pub fn matches(&self, value: &Short) -> bool
        ensures exact { IsTrue result ↔ SimpleFits self.now value.now }
        ensures value { result ≡ simple_fits self.now value.now }
    {
        piece_fits(self.text.bytes(), value.bytes())
    }
}
