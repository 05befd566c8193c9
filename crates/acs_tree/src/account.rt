//! The accounting of a job or of a step.
ghost use Rattle.std.specs.Prelude.{◌≡◌, ◌≤◌, ◌<◌, ◌↔◌, ◌∷◌, ◌++◌, [], IsTrue, length};
ghost use Rattle.desk_common.specs.Limits.{most_account_fields};

use desk_common::MAX_FIELDS;
use dsn_mask::Short;
use std::marker::Model;

/// At most 8 texts, in their order.
pub struct Account {
    items: [Short; MAX_FIELDS],
    count: u8,
}

impl Model for Account {
    ghost use Rattle.std.specs.Prelude.{List, ℕ, length, take, ◌≡◌, ◌≤◌};
    ghost use Rattle.desk_common.specs.Limits.{most_account_fields};
    ghost use Rattle.acs_tree.specs.Inner.Lists.{filled, no_field};

    ghost Value = { List (List ℕ) };

    ghost view = { λ s. take s.count s.items };

    ghost invariant = { λ s. (s.count ≡ length (take s.count s.items)) ×
        (s.items ≡ filled most_account_fields no_field (take s.count s.items)) ×
        (length (take s.count s.items) ≤ most_account_fields) };

    ghost inverse = { λ xs. record { items = filled most_account_fields no_field xs; count = length xs } };

    ghost use Rattle.acs_tree.specs.Inner.ListsFields.{account_back};

    ghost inverse_ok = { λ a h. account_back a h.0 h.1 };
}

impl Clone for Account {
    ghost is_clone = { λ x y. y ≡ x };

    ghost is_infallible = { λ _. Unit {0} };

    fn clone(&self) -> Result<Self, std::alloc::AllocError> {
        Ok(*self)
    }
}

impl Copy for Account {}

impl PartialEq for Account {
    ghost use Rattle.std.specs.Prelude.{nat_eq};
    ghost use Rattle.std.specs.Cmp.Lexicographic.{pointwise};
    ghost use Rattle.std.specs.Cmp.Rules.{comparing};
    ghost use Rattle.std.proofs.Common.{rules};

    ghost eq = { pointwise (pointwise nat_eq) };

    ghost laws = { Prim.search (comparing, rules) };

    fn eq(&self, other: &Account) -> bool {
        self.as_slice() == other.as_slice()
    }
}

impl Eq for Account {
    ghost use Rattle.std.specs.Cmp.Rules.{comparing};
    ghost use Rattle.std.proofs.Common.{rules};

    ghost laws = { Prim.search (comparing, rules) };
}

impl Account {
    /// No texts.
    pub fn new() -> Self
        ensures { result ≡ [] }
    {
        Account {
            items: [Short::null(); MAX_FIELDS],
            count: 0,
        }
    }

    /// The texts in their order, 0 to 8.
    pub fn as_slice(&self) -> &[Short]
        ensures items { result.now ≡ self.now }
        ensures few { length self.now ≤ most_account_fields }
    {
        &self.items[..self.count as usize]
    }

    /// No more can be added.
    pub fn is_full(&self) -> bool
        ensures { IsTrue result ↔ (length self.now ≡ most_account_fields) }
    {
        self.as_slice().len() == MAX_FIELDS
    }

    /// Adds one behind the others.
    pub fn push(&mut self, item: Short)
        requires { length self.old < most_account_fields }
        ensures { self.new ≡ self.old ++ item ∷ [] }
    {
        self.items[self.count as usize] = item;
        self.count += 1;
    }

    /// The same ones in the same order.
    pub fn equals(&self, other: &Account) -> bool
        ensures { IsTrue result ↔ (self.now ≡ other.now) }
    {
        self == other
    }
}
