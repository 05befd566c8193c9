//! What lint finds in a deck.
use acs_lint::Finding;
use acs_tree::Kind;
use desk_common::Items;
use dsn_mask::Name;

/// What lint finds in a deck (docs/manual/tool.md, "Linting a deck").
#[derive(Clone, Copy)]
pub enum DeckFinding {
    /// This is found in the routine of a kind.
    InRoutine { kind: Kind, finding: Finding },
    /// No SET of the routine of a kind sets this construct of the kind.
    NeverSet { kind: Kind, name: Name },
    /// No volume of this storage group is enabled.
    NotEnabled(Name),
    /// A data set of this management class that has no retention period is never deleted.
    NeverExpires(Name),
}

/// Findings in their order.
pub type DeckFindings = Items<DeckFinding>;
