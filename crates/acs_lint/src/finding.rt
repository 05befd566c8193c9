//! What lint finds in a routine.
use desk_common::Items;

/// What lint finds in a routine. Places are tokens, counted from 0 (docs/manual/tool.md, "Linting a deck").
#[derive(Clone, Copy)]
pub enum Finding {
    /// The WHEN at a token is never taken, since an earlier one of its SELECT holds wherever it does.
    Covered { arm: u32, since: u32 },
    /// The statement at a token is never begun, since one before it always exits.
    Behind { statement: u32, since: u32 },
    /// The entry of a filter list at a token fits nothing that an earlier one of its list doesn't fit.
    Spare { entry: u32, since: u32 },
    /// The text between quotes at a token has a wildcard, and is compared as it stands.
    Quoted { literal: u32 },
    /// No comparison names the filter list whose name stands at a token.
    Unused { list: u32 },
}

/// Findings in their order.
pub type Findings = Items<Finding>;
