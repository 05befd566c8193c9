//! A routine with its code.
ghost use Rattle.std.specs.Prelude.{◌≡◌, IfOk};
ghost use Rattle.acs_code.specs.Stands.{StandsFor};

use acs_code::{Code, compile};
use acs_tree::Checked;
use std::alloc::{AllocError, Global};
use std::marker::Model;

/// A checked routine and the code that stands for it. Contracts see the routine.
#[derive(Drop)]
pub struct Compiled {
    source: Checked,
    code: Code,
}

impl Model for Compiled {
    ghost use Rattle.acs_tree.specs.CheckedRoutine.{CheckedRoutine};
    ghost use Rattle.acs_tree.specs.contracts.routine.Form as form;
    ghost use Rattle.acs_code.specs.Stands.{StandsFor};
    ghost use Rattle.std.specs.Coded.{codes};

    ghost Value = { CheckedRoutine };

    ghost coded = { Prim.hlevel (codes, form.the_row.coded) };

    ghost view = { λ s. s.source };

    ghost invariant = { λ s. StandsFor s.code s.source };
}

impl Compiled {
    /// The routine with the code that `compile` gives.
    pub fn new(alloc: Global, source: Checked) -> Result<Self, AllocError>
        ensures { IfOk result (λ made. made ≡ source) }
    {
        let code = compile(alloc, &source)?;
        Ok(Compiled { source, code })
    }

    /// The routine.
    pub fn source(&self) -> &Checked
        ensures { result.now ≡ self.now }
    {
        &self.source
    }

    /// What `compile` gives for it.
    pub fn code(&self) -> &Code
        ensures { StandsFor result.now self.now }
    {
        &self.code
    }
}
