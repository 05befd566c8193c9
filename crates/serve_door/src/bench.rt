//! Benches, where clerks sit.
ghost use Rattle.std.specs.Prelude.{◌≡◌, ◌++◌, List, []};
ghost use Rattle.http_talk.specs.declared.talk.Talk.{Talk as TalkOf};

use http_talk::{Clerk, Talks};
use std::alloc::Global;

/// What makes a clerk for each link, one after the other, and takes it back.
pub trait Bench {
    /// Who answers the requests of one link.
    type Sitting: Clerk;

    /// The second is the first after its clerks had these talks.
    ghost follows: { Self → List TalkOf → Self → Type 0 };

    /// The bench that a clerk was made from.
    ghost sat_at: { Self.Sitting → Self };

    /// A clerk with no talks so far. It takes no memory.
    fn seat(self, alloc: Global) -> Self::Sitting
        ensures from { sat_at result ≡ self }
        ensures talks { Self.Sitting.talks result ≡ [] };

    /// Takes the clerk back, and hands out its talks. It takes no memory.
    fn back(clerk: Self::Sitting) -> (Self, Talks)
        ensures follows { follows (sat_at clerk) (Self.Sitting.talks clerk) result.0 }
        ensures talks { result.1 ≡ Self.Sitting.talks clerk };

    /// The bench that a clerk was made from is known by what the clerk began with.
    ghost by_start: { (one other : Self.Sitting)
        → Self.Sitting.start other ≡ Self.Sitting.start one → sat_at other ≡ sat_at one };

    /// A bench whose clerks had no talks is as it was.
    ghost stays: { (bench : Self) → follows bench [] bench };

    /// Talks of one clerk and then those of others.
    ghost joins: { (first middle last : Self) (talks more : List TalkOf)
        → follows first talks middle → follows middle more last → follows first (talks ++ more) last };
}
