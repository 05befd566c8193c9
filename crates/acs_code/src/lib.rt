//! The code of a routine, and the compiler that makes it (docs/manual/acs-language.md, Code).
#![tactic(auto)]

mod blocks;
mod code;
mod compiled_list;
mod compiler;
mod conditions;
mod field;
mod filters;
mod fork;
mod instr;
mod jumps;
mod lefts;
pub mod lists;
pub mod numbers;
mod part;
pub mod parts;
mod probe;
mod right;
pub mod rights;
pub mod sets;
mod slot;
mod upward;
mod writes;

pub use code::Code;
pub use compiler::compile;
pub use field::{Field, NumberField, TextField};
pub use instr::{Filters, Instr, Instrs, Parts};
pub use part::Part;
pub use probe::Probe;
pub use right::Right;
pub use slot::Slot;
