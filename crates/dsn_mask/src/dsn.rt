//! Data set names.
ghost use Rattle.std.specs.Prelude.{◌≡◌, ◌≤◌, ◌<◌, ◌-◌, ◌⊎◌, ℕ, Some, Err, length, MatchOption, MatchResult};
ghost use Rattle.std.specs.List.{slice_get};
ghost use Rattle.std.specs.Result.{result_ok};
ghost use Rattle.dsn_mask.specs.Qualifiers.{qualifiers_of};
ghost use Rattle.dsn_mask.specs.DataSetName.{IsDataSetName, dsn_of};
ghost use Rattle.dsn_mask.specs.NameFault.{IsFirstNameFault};

use crate::name_fault::first_fault;
use crate::qualifiers::{count_qualifiers, qualifier_at};
use crate::text::Text;
use crate::{NameErr, Short};
use desk_common::MAX_VALUE;
use std::cmp::Ordering;
use std::hash::{Hash, Hasher};
use std::marker::Model;

/// A data set name: at most 44 bytes, qualifiers of one to eight bytes between full stops
/// (docs/manual/names.md, "Data set names").
#[derive(Clone, Copy)]
pub struct Dsn {
    text: Text<MAX_VALUE>,
}

impl Model for Dsn {
    ghost use Rattle.std.specs.Prelude.{List, ℕ};
    ghost use Rattle.dsn_mask.specs.DataSetName.{IsDataSetName};

    ghost Value = { List ℕ };

    ghost view = { λ s. s.text };

    ghost invariant = { λ s. IsDataSetName s.text };

    ghost inverse = { λ xs. record { text = xs } };
}

impl PartialEq for Dsn {
    ghost use Rattle.std.specs.Prelude.{nat_eq};
    ghost use Rattle.std.specs.Cmp.Lexicographic.{pointwise};
    ghost use Rattle.std.specs.Cmp.Rules.{comparing};
    ghost use Rattle.std.proofs.Common.{rules};

    ghost eq = { pointwise nat_eq };

    ghost laws = { Prim.search (comparing, rules) };

    fn eq(&self, other: &Dsn) -> bool {
        self.text.equals(&other.text)
    }
}

impl Eq for Dsn {
    ghost use Rattle.std.specs.Cmp.Rules.{comparing};
    ghost use Rattle.std.proofs.Common.{rules};

    ghost laws = { Prim.search (comparing, rules) };
}

impl PartialOrd for Dsn {
    ghost use Rattle.std.specs.Prelude.{Some};
    ghost use Rattle.std.specs.Ordering.{nat_cmp};
    ghost use Rattle.std.specs.Cmp.Lexicographic.{slice_cmp, texts_po};

    ghost partial_cmp = { λ x y. Some (slice_cmp nat_cmp x y) };

    ghost laws = { texts_po };

    fn partial_cmp(&self, other: &Dsn) -> Option<Ordering> {
        Some(self.cmp(other))
    }
}

/// By their bytes.
impl Ord for Dsn {
    ghost use Rattle.std.specs.Prelude.{refl};
    ghost use Rattle.std.specs.Ordering.{nat_cmp};
    ghost use Rattle.std.specs.Cmp.Lexicographic.{slice_cmp, nat_list_cmp_total, texts_ties};

    ghost cmp = { slice_cmp nat_cmp };

    ghost total = { nat_list_cmp_total };

    ghost matches_partial_cmp = { λ x y. refl };

    ghost matches_eq = { texts_ties };

    fn cmp(&self, other: &Dsn) -> Ordering {
        self.text.order(&other.text)
    }
}

impl Hash for Dsn {
    ghost use Rattle.std.specs.Prelude.{[], ◌∷◌};
    ghost use Rattle.std.specs.Cmp.Rules.{comparing};
    ghost use Rattle.std.proofs.Common.{rules};

    ghost hash_input = { λ text. text ∷ [] };

    ghost respects_eq = { Prim.search (comparing, rules) };

    fn hash<H: Hasher>(&self, state: &mut H) {
        state.write(self.bytes());
    }
}

impl Dsn {
    /// The data set name that the bytes spell, or their first fault.
    pub fn parse(bytes: &[u8]) -> Result<Self, NameErr>
        ensures value { result_ok result ≡ dsn_of bytes.now }
        ensures exact { MatchResult result (λ dsn. IsDataSetName bytes.now × (dsn ≡ bytes.now))
            (λ err. (IsDataSetName bytes.now → ⊥) × IsFirstNameFault bytes.now err) }
        ensures refused { (err : NameErr) → IsFirstNameFault bytes.now err → result ≡ Err err }
    {
        if bytes.is_empty() {
            return Err(NameErr::Empty);
        }
        if bytes.len() > MAX_VALUE {
            return Err(NameErr::TooLong);
        }
        match first_fault(bytes) {
            Some(fault) => Err(fault),
            None => Ok(Dsn {
                text: Text::new(bytes),
            }),
        }
    }

    /// The bytes of the name, 1 to 44.
    pub fn bytes(&self) -> &[u8]
        ensures bytes { result.now ≡ self.now }
        ensures form { IsDataSetName self.now }
    {
        self.text.bytes()
    }

    /// The number of qualifiers, 1 to 22.
    pub fn count(&self) -> usize
        ensures { result ≡ length (qualifiers_of self.now) }
    {
        count_qualifiers(self.bytes())
    }

    /// The qualifier of this number, counted from 1, or None where there is no such one.
    pub fn qualifier(&self, number: usize) -> Option<&[u8]>
        ensures { MatchOption result ((number ≡ 0) ⊎ (length (qualifiers_of self.now) < number))
            (λ found. (1 ≤ number) × (slice_get (qualifiers_of self.now) (number - 1) ≡ Some found.now)) }
    {
        if number == 0 {
            return None;
        }
        qualifier_at(self.bytes(), number - 1)
    }

    /// The name as a value of routines.
    pub fn text(&self) -> Short
        ensures { result ≡ self.now }
    {
        Short { text: self.text }
    }
}
