//! Names of one to eight bytes.
ghost use Rattle.std.specs.Prelude.{◌≡◌, MatchOption};
ghost use Rattle.dsn_mask.specs.Name.{IsName, name_of};
ghost use Rattle.dsn_mask.specs.Names.{filler};

use crate::byte_class::{are_name_bytes, is_initial};
use crate::text::Text;
use desk_common::MAX_NAME;
use std::cmp::Ordering;
use std::hash::{Hash, Hasher};
use std::marker::Model;

/// A name: one to eight letters, digits, `#`, `@` and `$`, the first no digit.
#[derive(Clone, Copy)]
pub struct Name {
    text: Text<MAX_NAME>,
}

impl Model for Name {
    ghost use Rattle.std.specs.Prelude.{List, ℕ};
    ghost use Rattle.dsn_mask.specs.Name.{IsName};

    ghost Value = { List ℕ };

    ghost view = { λ s. s.text };

    ghost invariant = { λ s. IsName s.text };

    ghost inverse = { λ xs. record { text = xs } };
}

impl PartialEq for Name {
    ghost use Rattle.std.specs.Prelude.{nat_eq};
    ghost use Rattle.std.specs.Cmp.Lexicographic.{pointwise};
    ghost use Rattle.std.specs.Cmp.Rules.{comparing};
    ghost use Rattle.std.proofs.Common.{rules};

    ghost eq = { pointwise nat_eq };

    ghost laws = { Prim.search (comparing, rules) };

    fn eq(&self, other: &Name) -> bool {
        self.text.equals(&other.text)
    }
}

impl Eq for Name {
    ghost use Rattle.std.specs.Cmp.Rules.{comparing};
    ghost use Rattle.std.proofs.Common.{rules};

    ghost laws = { Prim.search (comparing, rules) };
}

impl PartialOrd for Name {
    ghost use Rattle.std.specs.Prelude.{Some};
    ghost use Rattle.std.specs.Ordering.{nat_cmp};
    ghost use Rattle.std.specs.Cmp.Lexicographic.{slice_cmp, texts_po};

    ghost partial_cmp = { λ x y. Some (slice_cmp nat_cmp x y) };

    ghost laws = { texts_po };

    fn partial_cmp(&self, other: &Name) -> Option<Ordering> {
        Some(self.cmp(other))
    }
}

/// By their bytes.
impl Ord for Name {
    ghost use Rattle.std.specs.Prelude.{refl};
    ghost use Rattle.std.specs.Ordering.{nat_cmp};
    ghost use Rattle.std.specs.Cmp.Lexicographic.{slice_cmp, nat_list_cmp_total, texts_ties};

    ghost cmp = { slice_cmp nat_cmp };

    ghost total = { nat_list_cmp_total };

    ghost matches_partial_cmp = { λ x y. refl };

    ghost matches_eq = { texts_ties };

    fn cmp(&self, other: &Name) -> Ordering {
        self.text.order(&other.text)
    }
}

impl Hash for Name {
    ghost use Rattle.std.specs.Prelude.{[], ◌∷◌};
    ghost use Rattle.std.specs.Cmp.Rules.{comparing};
    ghost use Rattle.std.proofs.Common.{rules};

    ghost hash_input = { λ name. name ∷ [] };

    ghost respects_eq = { Prim.search (comparing, rules) };

    fn hash<H: Hasher>(&self, state: &mut H) {
        state.write(self.bytes());
    }
}

impl Name {
    /// None where the bytes are out of form.
    pub fn new(bytes: &[u8]) -> Option<Self>
        ensures value { result ≡ name_of bytes.now }
        ensures exact { MatchOption result (IsName bytes.now → ⊥) (λ made. IsName bytes.now × (made ≡ bytes.now)) }
    {
        if bytes.is_empty()
            || bytes.len() > MAX_NAME
            || !is_initial(bytes[0])
            || !are_name_bytes(bytes)
        {
            return None;
        }
        Some(Name {
            text: Text::new(bytes),
        })
    }

    /// The bytes of the name, 1 to 8.
    pub fn bytes(&self) -> &[u8]
        ensures bytes { result.now ≡ self.now }
        ensures form { IsName self.now }
    {
        self.text.bytes()
    }

    // The name A, which stands in unused places.
    pub(crate) fn filler() -> Self
        ensures { result ≡ filler }
    {
        Name {
            text: Text::new(&[b'A']),
        }
    }
}
