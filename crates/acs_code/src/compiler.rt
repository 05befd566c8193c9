//! From a routine to its code.
ghost use Rattle.std.specs.Prelude.{IfOk};
ghost use Rattle.acs_code.specs.Stands.{GoesForward, StandsFor};

use crate::blocks::block;
use crate::code::Code;
use crate::lefts::lefts;
use crate::lists::Lists;
use crate::upward::Upward;
use acs_tree::{Checked, Stmt};
use std::alloc::{AllocError, Global};

// About so many instructions come of a statement of an ordinary body.
const INSTRS_TO_A_STATEMENT: usize = 12;

// Room is kept for at most so many; a longer code grows.
const MOST_ROOM: usize = 4096;

fn room_for(body: &[Stmt]) -> usize {
    MOST_ROOM.min(body.len().saturating_mul(INSTRS_TO_A_STATEMENT))
}

/// The code of a routine: for every input and start values it comes to what the routine means, and each
/// of its instructions goes on at a later place.
pub fn compile(alloc: Global, checked: &Checked) -> Result<Code, AllocError>
    ensures stands { IfOk result (λ code. StandsFor code checked.now) }
    ensures forward { IfOk result (λ code. GoesForward code) }
{
    let kind = checked.kind();
    let body = checked.tree().body.as_slice();
    let lists = Lists::new(alloc, body)?;
    let mut code = Upward::with_room(alloc, room_for(body))?;
    block(alloc, &mut code, kind, &lists, body)?;
    let instrs = code.finish();
    let filters = lists.filters(alloc)?;
    let lefts = lefts(alloc, instrs.as_slice())?;
    Ok(Code::seal(kind, instrs, filters, lefts))
}
