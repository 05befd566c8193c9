//! Lines of a text.
ghost use Rattle.std.specs.Prelude.{◌≡◌, ◌++◌, ◌∷◌, [], IfOk, OnOk};

use desk_common::Items;
use std::alloc::{AllocError, Global};

/// Lines of a text, without their line ends.
pub type TextLines = Items<Items<u8>>;

// Room for most lines.
const LINE_ROOM: usize = 64;

/// A line without bytes, with room for those of most lines.
pub fn empty_line(alloc: Global) -> Result<Vec<u8>, AllocError>
    ensures { IfOk result (λ line. line.items ≡ []) }
{
    Vec::with_capacity(alloc, LINE_ROOM)
}

/// Puts a line behind the others.
pub fn push_line(lines: &mut TextLines, line: Vec<u8>) -> Result<(), AllocError>
    ensures { OnOk result (lines.new ≡ lines.old ++ line.items ∷ []) }
{
    match lines.push(Items::from_vec(line)) {
        Ok(()) => Ok(()),
        Err(_) => Err(AllocError),
    }
}
