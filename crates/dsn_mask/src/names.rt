//! Lists of names.
ghost use Rattle.std.specs.Prelude.{◌≡◌, ◌<◌, ◌↔◌, List, ℕ, [], ◌∷◌, ◌++◌, length, IsTrue, Contains};
ghost use Rattle.desk_common.specs.Limits.{most_groups_set};
ghost use Rattle.dsn_mask.specs.Names.{AreFewAndOnce};

use crate::Name;
use desk_common::MAX_GROUPS_SET;
use std::marker::Model;

/// At most 15 names, none twice, in the order in which they were added.
#[derive(Clone, Copy)]
pub struct Names {
    items: [Name; MAX_GROUPS_SET],
    count: usize,
}

impl Model for Names {
    ghost use Rattle.std.specs.Prelude.{List, ℕ, length, take, ◌≡◌};
    ghost use Rattle.dsn_mask.specs.Names.{AreFewAndOnce, filled};

    ghost Value = { List (List ℕ) };

    ghost view = { λ s. take s.count s.items };

    ghost invariant = { λ s. (s.count ≡ length (take s.count s.items)) × (s.items ≡ filled (take s.count s.items)) ×
        AreFewAndOnce (take s.count s.items) };

    ghost inverse = { λ xs. record { items = filled xs; count = length xs } };

    ghost use Rattle.dsn_mask.specs.Inner.NamesFields.{fields_back};

    ghost inverse_ok = { λ a h. fields_back a h.0 h.1 };
}

impl PartialEq for Names {
    ghost use Rattle.std.specs.Prelude.{nat_eq};
    ghost use Rattle.std.specs.Cmp.Lexicographic.{pointwise};
    ghost use Rattle.std.specs.Cmp.Rules.{comparing};
    ghost use Rattle.std.proofs.Common.{rules};

    ghost eq = { pointwise (pointwise nat_eq) };

    ghost laws = { Prim.search (comparing, rules) };

    fn eq(&self, other: &Names) -> bool {
        self.as_slice() == other.as_slice()
    }
}

impl Eq for Names {
    ghost use Rattle.std.specs.Cmp.Rules.{comparing};
    ghost use Rattle.std.proofs.Common.{rules};

    ghost laws = { Prim.search (comparing, rules) };
}

impl Names {
    /// No names.
    pub fn new() -> Self
        ensures { result ≡ [] }
    {
        Names {
            items: [Name::filler(); MAX_GROUPS_SET],
            count: 0,
        }
    }

    /// How many names there are, 0 to 15.
    pub fn len(&self) -> usize
        ensures { result ≡ length self.now }
    {
        self.count
    }

    /// There are no names.
    pub fn is_empty(&self) -> bool
        ensures { IsTrue result ↔ (self.now ≡ []) }
    {
        self.count == 0
    }

    /// No more names can be added.
    pub fn is_full(&self) -> bool
        ensures { IsTrue result ↔ (length self.now ≡ most_groups_set) }
    {
        self.count == MAX_GROUPS_SET
    }

    /// The names in the order in which they were added.
    pub fn as_slice(&self) -> &[Name]
        ensures names { result.now ≡ self.now }
        ensures form { AreFewAndOnce self.now }
    {
        &self.items[..self.count]
    }

    /// Whether the name is one of them.
    pub fn contains(&self, name: &Name) -> bool
        ensures { IsTrue result ↔ Contains self.now name.now }
    {
        self.as_slice().iter().any(|held| held == name)
    }

    /// Adds a name behind the others.
    pub fn push(&mut self, name: Name)
        requires room { length self.old < most_groups_set }
        requires unknown { Contains self.old name → ⊥ }
        ensures { self.new ≡ self.old ++ name ∷ [] }
    {
        self.items[self.count] = name;
        self.count += 1;
    }

    /// The same names in the same order.
    pub fn equals(&self, other: &Names) -> bool
        ensures { IsTrue result ↔ (self.now ≡ other.now) }
    {
        self == other
    }
}
