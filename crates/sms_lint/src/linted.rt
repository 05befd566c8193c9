//! What the linting of a deck comes to.
use crate::deck_finding::DeckFindings;
use desk_common::Items;
use sms_construct::Fault;
use sms_explain::DeckSources;

/// What lint finds in a deck, the texts of its routines with their tokens at their places, and the findings as text.
#[derive(Drop)]
pub struct Lint {
    pub findings: DeckFindings,
    pub sources: DeckSources,
    pub text: Items<u8>,
}

/// What the linting of a deck comes to (docs/manual/tool.md, "Linting a deck").
#[derive(Drop)]
pub enum Linted {
    /// What is found.
    Shown(Lint),
    /// The deck has this fault.
    Refused(Fault),
}
