//! The parser of ACS routines: the one tree of a list of tokens, or the place of the first token
//! after which no routine can follow (docs/manual/acs-language.md, Grammar).
//!
//! Readers that call themselves hold little on the stack: they give boxes, and statements are made of their parts in
//! functions apart (building.rt). A variable `_seen` that nothing reads names types that the check has to see where a
//! value that holds them is moved.
#![tactic(auto)]

mod building;
mod conditions;
mod fault;
mod laws;
mod list_kind;
mod lists;
mod parser;
mod parts;
mod plain;
mod statements;
mod tokens;
mod want;

pub use fault::ParseErr;
pub use laws::{limited_front, one_tree, tree_or_fault};
pub use list_kind::ListKind;
pub use parser::{parse, parse_symbols};
pub use want::Want;
