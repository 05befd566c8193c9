//! Masks of data set names.
ghost use Rattle.std.specs.Prelude.{◌≡◌, ◌↔◌, IsTrue, Err, MatchResult};
ghost use Rattle.std.specs.Result.{result_ok};
ghost use Rattle.dsn_mask.specs.Mask.{MaskFits};
ghost use Rattle.dsn_mask.specs.MaskFault.{IsFirstMaskFault};
ghost use Rattle.dsn_mask.specs.MaskText.{IsMask, mask_of};
ghost use Rattle.dsn_mask.specs.MaskTest.{mask_fits};

use crate::mask_fault::first_fault;
use crate::mask_walk::mask_fits;
use crate::text::Text;
use crate::{MaskErr, Short};
use desk_common::MAX_WORD;
use std::marker::Model;

/// A mask of data set names: qualifiers between full stops, of which `**` stands for zero or more
/// (docs/manual/acs-language.md, "Masks").
#[derive(Clone, Copy)]
pub struct Mask {
    text: Text<MAX_WORD>,
}

impl Model for Mask {
    ghost use Rattle.std.specs.Prelude.{List, ℕ};
    ghost use Rattle.dsn_mask.specs.MaskText.{IsMask};

    ghost Value = { List ℕ };

    ghost view = { λ s. s.text };

    ghost invariant = { λ s. IsMask s.text };

    ghost inverse = { λ xs. record { text = xs } };
}

impl PartialEq for Mask {
    ghost use Rattle.std.specs.Prelude.{nat_eq};
    ghost use Rattle.std.specs.Cmp.Lexicographic.{pointwise};
    ghost use Rattle.std.specs.Cmp.Rules.{comparing};
    ghost use Rattle.std.proofs.Common.{rules};

    ghost eq = { pointwise nat_eq };

    ghost laws = { Prim.search (comparing, rules) };

    fn eq(&self, other: &Mask) -> bool {
        self.bytes() == other.bytes()
    }
}

impl Eq for Mask {
    ghost use Rattle.std.specs.Cmp.Rules.{comparing};
    ghost use Rattle.std.proofs.Common.{rules};

    ghost laws = { Prim.search (comparing, rules) };
}

impl Mask {
    /// The mask that the bytes spell, or their first fault.
    pub fn parse(bytes: &[u8]) -> Result<Self, MaskErr>
        ensures value { result_ok result ≡ mask_of bytes.now }
        ensures exact { MatchResult result (λ made. IsMask bytes.now × (made ≡ bytes.now))
            (λ err. (IsMask bytes.now → ⊥) × IsFirstMaskFault bytes.now err) }
        ensures refused { (err : MaskErr) → IsFirstMaskFault bytes.now err → result ≡ Err err }
    {
        match first_fault(bytes, true) {
            Some(fault) => Err(fault),
            None => Ok(Mask {
                text: Text::new(bytes),
            }),
        }
    }

    /// The bytes of the mask, 1 to 64.
    pub fn bytes(&self) -> &[u8]
        ensures bytes { result.now ≡ self.now }
        ensures form { IsMask self.now }
    {
        self.text.bytes()
    }

    /// Whether the value fits. Where nothing fits any more the match goes on behind the last `**`, one
    /// qualifier later, and never back to an earlier one. So with s of them m qualifiers against n take
    /// at most (s + 1) * (m + 1) * (n + 1) turns, each one piece against one qualifier or none.
    pub fn matches(&self, value: &Short) -> bool
        ensures exact { IsTrue result ↔ MaskFits self.now value.now }
        ensures value { result ≡ mask_fits self.now value.now }
    {
        mask_fits(self.text.bytes(), value.bytes())
    }
}
