//! What in a routine is certain and hardly meant so (docs/manual/tool.md, "Linting a deck").
#![tactic(auto)]

mod blocks;
mod conditions;
mod entries;
mod exits;
mod finding;
mod linting;
mod mask_covering;
mod operands;
mod piece_covering;
mod qualifiers;
mod sets;
mod statements;
mod uses;
mod whens;

pub use finding::{Finding, Findings};
pub use linting::lint;
pub use sets::{may_be_set, set_values};
