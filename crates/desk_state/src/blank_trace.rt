//! The trace without lines.
ghost use Rattle.std.specs.Prelude.{◌≡◌, IfOk};
ghost use Rattle.acs_tree.specs.Slates.{blank};

use acs_tree::More;
use desk_common::{Items, Shared};
use sms_construct::Trace;
use std::alloc::{AllocError, Global};
use std::marker::Model;

/// The trace without lines: made where it is first needed, and from then on shared.
#[derive(Drop)]
pub struct BlankTrace {
    made: Option<Shared<Trace>>,
}

impl Model for BlankTrace {
    ghost use Rattle.std.specs.Prelude.{◌≡◌, IfSome};
    ghost use Rattle.acs_tree.specs.Slates.{blank};

    ghost Value = { Unit {0} };

    ghost view = { λ b. tt };

    ghost invariant = { λ b. IfSome b.made (λ trace. trace ≡ record { lines = blank.lines; more = blank.more }) };
}

impl BlankTrace {
    /// The trace, which isn't made yet. It takes no memory.
    pub fn new() -> Self {
        BlankTrace { made: None }
    }

    /// The trace with one owner more, or want of memory.
    pub fn share(&mut self, alloc: Global) -> Result<Shared<Trace>, AllocError>
        ensures { IfOk result (λ trace. trace ≡ record { lines = blank.lines; more = blank.more }) }
    {
        if let Some(trace) = &self.made {
            return trace.share();
        }
        let trace = Shared::new(alloc, without_lines(alloc))?;
        self.made = Some(trace.share()?);
        Ok(trace)
    }
}

fn without_lines(alloc: Global) -> Trace
    ensures { result ≡ record { lines = blank.lines; more = blank.more } }
{
    Trace {
        lines: Items::new(alloc),
        more: More {
            dataclas: 0,
            storclas: 0,
            mgmtclas: 0,
            storgrp: 0,
        },
    }
}
