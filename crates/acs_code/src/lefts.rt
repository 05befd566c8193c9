// The variables that tests are about.
ghost use Rattle.std.specs.Prelude.{◌≡◌, IfOk, map};
ghost use Rattle.acs_code.specs.Fields.{left_of};

use crate::field::{Field, TextField};
use crate::instr::Instr;
use desk_common::Items;
use std::alloc::{AllocError, Global};

/// What the left side of each test reads.
pub type Lefts = Items<Field>;

/// Those of the instructions, one for each.
pub fn lefts(alloc: Global, instrs: &[Instr]) -> Result<Lefts, AllocError>
    ensures { IfOk result (λ lefts. lefts ≡ map left_of instrs.now) }
{
    let mut lefts = Items::new(alloc);
    for instr in instrs {
        lefts.push(left_of(instr))?;
    }
    Ok(lefts)
}

fn left_of(instr: &Instr) -> Field
    ensures { result ≡ left_of instr.now }
{
    match instr {
        Instr::Test { probe, .. } => Field::named(&probe.left.name),
        _ => Field::Text(TextField::Null),
    }
}
