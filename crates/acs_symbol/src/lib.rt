//! The tokens of a routine as its grammar reads them: each with its text, and with what a word can
//! be besides a name (docs/manual/acs-language.md, Grammar).
#![tactic(auto)]

mod keyword;
mod laws;
mod reading;
mod rest;
mod scanning;
mod symbol;
mod unquoted;
mod upper;

pub use laws::token_count;
pub use reading::symbols;
pub use rest::Rest;
pub use scanning::{Symbols, read_symbols};
pub use symbol::{Symbol, WordKind};
pub use unquoted::Unquoted;
pub use upper::Upper;
