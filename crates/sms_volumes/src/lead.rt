//! The volume that leads while one is chosen.
ghost use Rattle.std.specs.Prelude.{◌≡◌, ◌==◌, ◌&&◌, None};

use crate::pick::Pick;
use volume_lists::{BEHIND_ALL_LISTS, Listing, rank};

/// The volume that leads among those looked at so far, with the rank of its list and the tier of its storage group;
/// behind all lists where there is none.
#[derive(Drop)]
pub struct Lead {
    pub pick: Option<Pick>,
    pub rank: u8,
    pub tier: u8,
}

impl Lead {
    /// No volume leads.
    pub fn none() -> Lead
        ensures pick { result.pick ≡ None }
        ensures rank { result.rank ≡ 4 }
        ensures tier { result.tier ≡ 0 }
    {
        Lead {
            pick: None,
            rank: BEHIND_ALL_LISTS,
            tier: 0,
        }
    }

    /// Whether no volume can come before it.
    pub fn is_first(&self) -> bool
        ensures { result ≡ (self.now.rank == 1 && self.now.tier == 0) }
    {
        self.rank == rank(Listing::Primary) && self.tier == 0
    }
}
