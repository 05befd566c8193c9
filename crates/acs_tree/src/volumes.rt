//! The volumes that a request names.
ghost use Rattle.std.specs.Prelude.{◌≡◌, ◌≤◌, ◌<◌, ◌↔◌, ◌∷◌, ◌++◌, [], IsTrue, length};
ghost use Rattle.desk_common.specs.Limits.{most_volume_count};
ghost use Rattle.acs_tree.specs.Inner.Lists.{no_volume};

use desk_common::MAX_VOLUMES;
use dsn_mask::Volser;
use std::marker::Model;

/// At most 59 volume serials, in their order.
pub struct Volumes {
    items: [Volser; MAX_VOLUMES],
    count: u8,
}

impl Model for Volumes {
    ghost use Rattle.std.specs.Prelude.{List, ℕ, length, take, ◌≡◌, ◌≤◌};
    ghost use Rattle.desk_common.specs.Limits.{most_volume_count};
    ghost use Rattle.acs_tree.specs.Inner.Lists.{filled, no_volume};

    ghost Value = { List (List ℕ) };

    ghost view = { λ s. take s.count s.items };

    ghost invariant = { λ s. (s.count ≡ length (take s.count s.items)) ×
        (s.items ≡ filled most_volume_count no_volume (take s.count s.items)) ×
        (length (take s.count s.items) ≤ most_volume_count) };

    ghost inverse = { λ xs. record { items = filled most_volume_count no_volume xs; count = length xs } };

    ghost use Rattle.acs_tree.specs.Inner.ListsFields.{volumes_back};

    ghost inverse_ok = { λ a h. volumes_back a h.0 h.1 };
}

impl Clone for Volumes {
    ghost is_clone = { λ x y. y ≡ x };

    ghost is_infallible = { λ _. Unit {0} };

    fn clone(&self) -> Result<Self, std::alloc::AllocError> {
        Ok(*self)
    }
}

impl Copy for Volumes {}

impl PartialEq for Volumes {
    ghost use Rattle.std.specs.Prelude.{nat_eq};
    ghost use Rattle.std.specs.Cmp.Lexicographic.{pointwise};
    ghost use Rattle.std.specs.Cmp.Rules.{comparing};
    ghost use Rattle.std.proofs.Common.{rules};

    ghost eq = { pointwise (pointwise nat_eq) };

    ghost laws = { Prim.search (comparing, rules) };

    fn eq(&self, other: &Volumes) -> bool {
        self.as_slice() == other.as_slice()
    }
}

impl Eq for Volumes {
    ghost use Rattle.std.specs.Cmp.Rules.{comparing};
    ghost use Rattle.std.proofs.Common.{rules};

    ghost laws = { Prim.search (comparing, rules) };
}

impl Volumes {
    /// No volumes.
    pub fn new() -> Self
        ensures { result ≡ [] }
    {
        Volumes {
            items: [unused(); MAX_VOLUMES],
            count: 0,
        }
    }

    /// The serials in their order, 0 to 59.
    pub fn as_slice(&self) -> &[Volser]
        ensures items { result.now ≡ self.now }
        ensures few { length self.now ≤ most_volume_count }
    {
        &self.items[..self.count as usize]
    }

    /// No more can be added.
    pub fn is_full(&self) -> bool
        ensures { IsTrue result ↔ (length self.now ≡ most_volume_count) }
    {
        self.as_slice().len() == MAX_VOLUMES
    }

    /// Adds one behind the others.
    pub fn push(&mut self, item: Volser)
        requires { length self.old < most_volume_count }
        ensures { self.new ≡ self.old ++ item ∷ [] }
    {
        self.items[self.count as usize] = item;
        self.count += 1;
    }

    /// The same ones in the same order.
    pub fn equals(&self, other: &Volumes) -> bool
        ensures { IsTrue result ↔ (self.now ≡ other.now) }
    {
        self == other
    }
}

// The serial A, which stands in unused places.
fn unused() -> Volser
    ensures { result ≡ no_volume }
{
    Volser::new(b"A").unwrap()
}
