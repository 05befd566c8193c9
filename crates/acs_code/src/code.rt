//! The code of a routine.
ghost use Rattle.std.specs.Prelude.{◌≡◌, map};
ghost use Rattle.acs_code.specs.Fields.{left_of};
ghost use Rattle.acs_code.specs.Stands.{GoesForward};

use crate::field::Field;
use crate::instr::{Filters, Instr, Instrs};
use crate::lefts::Lefts;
use acs_tree::Kind;
use dsn_mask::FilterIndex;
use std::marker::Model;

/// A compiled routine. Each instruction goes on at a later place, or ends the run.
#[derive(Drop)]
pub struct Code {
    kind: Kind,
    instrs: Instrs,
    filters: Filters,
    lefts: Lefts,
}

impl Model for Code {
    ghost use Rattle.acs_code.specs.Machine.{CodeParts};
    ghost use Rattle.acs_code.specs.Stands.{GoesForward};
    ghost use Rattle.acs_code.specs.contracts.instr.Instr as instr;
    ghost use Rattle.dsn_mask.specs.contracts.entry.Entry as entry;
    ghost use Rattle.acs_code.specs.Fields.{left_of};
    ghost use Rattle.std.specs.Prelude.{◌≡◌, map};
    ghost use Rattle.std.specs.Coded.{codes};

    ghost Value = { CodeParts };

    ghost coded = { Prim.hlevel (codes, instr.the_row.coded, entry.the_row.coded) };

    ghost view = { λ s. record { kind = s.kind; instrs = s.instrs; filters = s.filters } };

    ghost invariant = { λ s. (s.lefts ≡ map left_of s.instrs) ×
        GoesForward (record { kind = s.kind; instrs = s.instrs; filters = s.filters }) };
}

impl Code {
    pub(crate) fn seal(kind: Kind, instrs: Instrs, filters: Filters, lefts: Lefts) -> Self
        requires forward { GoesForward (record { kind = kind; instrs = instrs; filters = filters }) }
        requires lefts { lefts ≡ map left_of instrs }
        ensures { result ≡ record { kind = kind; instrs = instrs; filters = filters } }
    {
        Code {
            kind,
            instrs,
            filters,
            lefts,
        }
    }

    /// What the routine chooses: a class, or storage groups.
    pub fn kind(&self) -> Kind
        ensures { result ≡ self.now.kind }
    {
        self.kind
    }

    /// The instructions, whose places count from 0; a run begins at the first.
    pub fn instrs(&self) -> &[Instr]
        ensures instrs { result.now ≡ self.now.instrs }
        ensures forward { GoesForward self.now }
    {
        self.instrs.as_slice()
    }

    /// The filter lists, which instructions name by their places from 0.
    pub fn filters(&self) -> &[FilterIndex]
        ensures { result.now ≡ self.now.filters }
    {
        self.filters.as_slice()
    }

    /// What the left sides of the tests read, by the places of the instructions.
    pub fn lefts(&self) -> &[Field]
        ensures { result.now ≡ map left_of self.now.instrs }
    {
        self.lefts.as_slice()
    }
}
