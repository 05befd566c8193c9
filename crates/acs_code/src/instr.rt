// The instructions.
use crate::part::Part;
use crate::probe::Probe;
use desk_common::Items;
use dsn_mask::{FilterIndex, Names};

/// One instruction (docs/manual/acs-language.md, Code). A test and a jump name the places where they go on.
#[derive(Drop)]
pub enum Instr {
    Test { probe: Probe, yes: u64, no: u64 },
    Jump(u64),
    SetClass(Part),
    SetGroups(Names),
    Write(Parts),
    Exit(u16),
}

/// Instructions in their order.
pub type Instrs = Items<Instr>;

/// The parts of a line in their order.
pub type Parts = Items<Part>;

/// Filter lists in their order.
pub type Filters = Items<FilterIndex>;
