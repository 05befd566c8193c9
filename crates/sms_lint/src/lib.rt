//! What in a deck is certain and hardly meant so (docs/manual/tool.md, "Linting a deck").
#![tactic(auto)]

mod constructs;
mod deck_finding;
mod finding_text;
mod groups;
mod linted;
mod linting;
mod names;
mod routines;

pub use deck_finding::{DeckFinding, DeckFindings};
pub use linted::{Lint, Linted};
pub use linting::lint;
