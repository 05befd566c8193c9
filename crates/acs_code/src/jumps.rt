// Jumps and exits.
ghost use Rattle.std.specs.Prelude.{◌≡◌, ◌≤◌, List, length, OnOk};
ghost use Rattle.dsn_mask.specs.Filter.{FilterLists};
ghost use Rattle.acs_tree.specs.Meaning.{code_of};
ghost use Rattle.acs_tree.specs.Outcome.{nothing, exits};
ghost use Rattle.acs_tree.specs.declared.kind.Kind.{Kind};
ghost use Rattle.acs_code.specs.Inner.Upward.{Does, Over};
ghost use Rattle.acs_code.specs.declared.instr.Instr.{Instr};

use crate::instr::Instr;
use crate::numbers;
use crate::upward::Upward;
use acs_tree::Operand;
use std::alloc::AllocError;

/// Goes on at a place; where that place is the next one, nothing is needed.
pub fn jump(code: &mut Upward, end: u64) -> Result<(), AllocError>
    ensures longer { OnOk result (length code.old ≤ length code.new) }
    ensures over { OnOk result ((kind : Kind) (filters : List FilterLists) → end ≤ length code.old →
        Over kind filters code.old code.new) }
    ensures there { OnOk result ((kind : Kind) (filters : List FilterLists) (rest : List Instr) → end ≡ length rest →
        Over kind filters rest code.old → Does kind filters nothing rest code.new) }
{
    if code.place() == end {
        return Ok(());
    }
    code.put(Instr::Jump(end))
}

/// EXIT.
pub fn exit(code: &mut Upward, number: &Option<Operand>) -> Result<(), AllocError>
    ensures { OnOk result ((kind : Kind) (filters : List FilterLists) →
        Does kind filters (λ input values. exits (code_of number.now) values) code.old code.new) }
{
    code.put(Instr::Exit(exit_code(number)))
}

fn exit_code(number: &Option<Operand>) -> u16
    ensures { result ≡ code_of number.now }
{
    match number {
        None => 0,
        Some(operand) => numbers::code(&operand.form),
    }
}
