// WRITE.
ghost use Rattle.std.specs.Prelude.{◌≡◌, List, IfOk, OnOk};
ghost use Rattle.dsn_mask.specs.Filter.{FilterLists};
ghost use Rattle.acs_tree.specs.Meaning.{writes};
ghost use Rattle.acs_tree.specs.Writing.{joined};
ghost use Rattle.acs_tree.specs.declared.input.Input.{Input};
ghost use Rattle.acs_tree.specs.declared.kind.Kind.{Kind};
ghost use Rattle.acs_tree.specs.declared.values.Values.{Values};
ghost use Rattle.acs_code.specs.Machine.{parts_text};
ghost use Rattle.acs_code.specs.Inner.Upward.{Does};

use crate::instr::{Instr, Parts};
use crate::parts::part;
use crate::upward::Upward;
use acs_tree::Operand;
use desk_common::Items;
use std::alloc::{AllocError, Global};

pub fn write(alloc: Global, code: &mut Upward, operands: &[Operand]) -> Result<(), AllocError>
    ensures { OnOk result ((kind : Kind) (filters : List FilterLists) →
        Does kind filters (writes operands.now) code.old code.new) }
{
    let parts = parts(alloc, operands)?;
    code.put(Instr::Write(parts))
}

fn parts(alloc: Global, operands: &[Operand]) -> Result<Parts, AllocError>
    ensures { IfOk result (λ parts. (input : Input) (values : Values) →
        parts_text parts input values ≡ joined operands.now input values) }
{
    let mut parts = Items::new(alloc);
    for operand in operands {
        parts.push(part(&operand.form))?;
    }
    Ok(parts)
}
