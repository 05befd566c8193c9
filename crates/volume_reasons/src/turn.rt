//! How early volumes are looked at.
ghost use Rattle.std.specs.Prelude.{◌≡◌, ◌==◌, Some, slice_get};
ghost use Rattle.volume_lists.specs.declared.view.VolView.{VolView as View};
ghost use Rattle.volume_reasons.specs.Inner.Turns.{has_turn, turn_of};
ghost use Rattle.volume_reasons.specs.Reasons.{may_be_chosen, none_is_left};

use volume_lists::{BEHIND_ALL_LISTS, VolView, Want, choose, comes_before, listing, rank};

/// How early a volume is looked at: the rank of its list, and its tier there.
#[derive(Clone, Copy)]
pub struct Turn {
    pub rank: u8,
    pub tier: u8,
}

impl Turn {
    // Behind all lists.
    fn last() -> Self
        ensures { result ≡ record { rank = 4; tier = 0 } }
    {
        Turn {
            rank: BEHIND_ALL_LISTS,
            tier: 0,
        }
    }

    // The turn of a volume.
    fn of(view: &VolView, want: &Want) -> Self
        ensures { result ≡ turn_of want.now view.now }
    {
        Turn {
            rank: rank(listing(view, want)),
            tier: view.tier,
        }
    }

    /// Whether this is behind all lists.
    pub fn is_last(&self) -> bool
        ensures { result ≡ (self.now.rank == 4) }
    {
        self.rank == BEHIND_ALL_LISTS
    }

    /// Whether the volume stands in a list, and this turn doesn't come before its own.
    pub fn has(&self, view: &VolView, want: &Want) -> bool
        ensures { result ≡ has_turn self.now want.now view.now }
    {
        let own = Turn::of(view, want);
        own.rank < BEHIND_ALL_LISTS && !comes_before(self.rank, self.tier, own.rank, own.tier)
    }
}

/// The earliest turn of the volumes, and behind all lists where all are rejected.
#[tactic(auto, using(crate::proofs::TurnLemmas::chosen_may, crate::proofs::TurnLemmas::chosen_left, crate::proofs::TurnLemmas::rejected_may, crate::proofs::TurnLemmas::rejected_left))]
pub fn first_turn(views: &[VolView], want: &Want) -> Turn
    ensures may { (view : View) → has_turn result want.now view ≡ may_be_chosen views.now want.now view }
    ensures none { (result.rank == 4) ≡ none_is_left views.now want.now }
{
    match choose(views, want) {
        Some(position) => turn_at(views, position, want),
        None => Turn::last(),
    }
}

// The turn of the volume at a position, and behind all lists where there is none.
fn turn_at(views: &[VolView], position: usize, want: &Want) -> Turn
    ensures { (view : View) → slice_get views.now position ≡ Some view → result ≡ turn_of want.now view }
{
    match views.get(position) {
        Some(view) => Turn::of(view, want),
        None => Turn::last(),
    }
}
