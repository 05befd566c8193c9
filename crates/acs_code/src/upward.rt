//! Code that is written from its end.
ghost use Rattle.std.specs.Prelude.{◌≡◌, ◌∷◌, [], length, map, IfOk, OnOk};
ghost use Rattle.acs_code.specs.Inner.Upward.{placed};

use crate::instr::{Instr, Instrs};
use desk_common::Items;
use std::alloc::{AllocError, Global};
use std::marker::Model;

/// Instructions, the last of which was written first. A place is told by how many instructions stand from
/// there to the end.
#[derive(Drop)]
pub struct Upward {
    items: Vec<Instr>,
}

impl Model for Upward {
    ghost use Rattle.acs_code.specs.declared.instr.Instr.{Instr};
    ghost use Rattle.std.specs.Prelude.{List, reverse};

    ghost Value = { List Instr };

    ghost view = { λ u. reverse u.items.items };
}

impl Upward {
    /// No instruction, with room for so many.
    pub fn with_room(alloc: Global, room: usize) -> Result<Self, AllocError>
        ensures { IfOk result (λ code. code ≡ []) }
    {
        let items = Vec::with_capacity(alloc, room)?;
        Ok(Upward { items })
    }

    /// The place of the instruction that was written last.
    pub fn place(&self) -> u64
        ensures { result ≡ length self.now }
    {
        self.items.len() as u64
    }

    /// Puts one more instruction in front.
    pub fn put(&mut self, instr: Instr) -> Result<(), AllocError>
        ensures { OnOk result (self.new ≡ instr ∷ self.old) }
    {
        self.items.push(instr)?;
        Ok(())
    }

    /// The instructions from the first on, with places told from the front.
    pub fn finish(self) -> Instrs
        ensures { result ≡ map (placed (length self)) self }
    {
        let count = self.place();
        let Upward { mut items } = self;
        items.reverse();
        tell_from_front(count, items.as_mut_slice());
        Items::from_vec(items)
    }
}

fn tell_from_front(count: u64, instrs: &mut [Instr])
    ensures { instrs.new ≡ map (placed count) instrs.old }
{
    for instr in instrs.iter_mut() {
        place_from_front(count, instr);
    }
}

fn place_from_front(count: u64, instr: &mut Instr)
    ensures { instr.new ≡ placed count instr.old }
{
    match instr {
        Instr::Test { yes, no, .. } => {
            *yes = count.saturating_sub(*yes);
            *no = count.saturating_sub(*no);
        }
        Instr::Jump(to) => *to = count.saturating_sub(*to),
        _ => {}
    }
}
