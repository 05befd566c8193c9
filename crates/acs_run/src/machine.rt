//! The machine.
ghost use Rattle.std.specs.Prelude.{◌≡◌, ◌<◌, length};
ghost use Rattle.acs_code.specs.Machine.{ComesTo, part_class, parts_line};
ghost use Rattle.acs_tree.specs.Setting.{with_class};
ghost use Rattle.acs_tree.specs.Outcome.{Outcome};
ghost use Rattle.acs_tree.specs.Slates.{KeepsOtherKinds, count_of, with_kept_lines, with_line};
ghost use Rattle.acs_tree.specs.KeptLines.{kept_lines_of};
ghost use Rattle.acs_run.specs.Inner.Memos.{Knows};
ghost use Rattle.acs_run.specs.Inner.Steps.{Leads};

use crate::classes::{class, set_class};
use crate::compare::holds;
use crate::line::line;
use crate::memo::Memo;
use acs_code::{Code, Instr, Part};
use acs_tree::{Ending, Kind, Seen, Slate, Values};

/// Where one instruction leads: on at a place, or to an exit with that code.
#[derive(Clone, Copy)]
pub enum Next {
    On(usize),
    Exited(u16),
}

/// Runs a code. Each instruction goes on at a later place, so that at most as many run as the code has.
pub fn run(code: &Code, input: &Seen<'_>, values: &mut Values, slate: &mut Slate) -> Ending
    requires { count_of code.now.kind slate.old.lines ≡ 0 }
    ensures comes { (came : Outcome) × ComesTo code.now input.now values.old came }
    ensures ending { (came : Outcome) → ComesTo code.now input.now values.old came → result ≡ came.ending }
    ensures values { (came : Outcome) → ComesTo code.now input.now values.old came → values.new ≡ came.values }
    ensures other_kinds { KeepsOtherKinds code.now.kind slate.old slate.new }
    ensures lines { (came : Outcome) → ComesTo code.now input.now values.old came →
        slate.new ≡ with_kept_lines code.now.kind (kept_lines_of came.lines) slate.old }
{
    // A fact for the proof; nothing changes.
    let _written = slate.lines();
    let end = code.instrs().len();
    let mut memo = Memo::new();
    let mut place = 0;
    while place < end {
        match step(code, input, place, values, slate, &mut memo) {
            Next::On(to) => place = to,
            Next::Exited(number) => return Ending::Exit(number),
        }
    }
    Ending::Falls
}

// One instruction.
fn step(
    code: &Code,
    input: &Seen<'_>,
    place: usize,
    values: &mut Values,
    slate: &mut Slate,
    memo: &mut Memo,
) -> Next
    requires within { place < length code.now.instrs }
    requires knows { Knows code.now.filters input.now.dsn memo.old }
    ensures leads { Leads code.now input.now place values.old slate.old values.new slate.new result }
    ensures knows { Knows code.now.filters input.now.dsn memo.new }
{
    match &code.instrs()[place] {
        Instr::Test { probe, yes, no } => {
            let left = code.lefts()[place];
            let to = if holds(code.filters(), left, probe, input, values, memo) {
                *yes
            } else {
                *no
            };
            Next::On(to as usize)
        }
        Instr::Jump(to) => Next::On(*to as usize),
        Instr::SetClass(part) => {
            assign(code.kind(), part, input, values);
            Next::On(place + 1)
        }
        Instr::SetGroups(groups) => {
            values.groups = *groups;
            Next::On(place + 1)
        }
        Instr::Write(parts) => {
            write(code.kind(), parts.as_slice(), input, values, slate);
            Next::On(place + 1)
        }
        Instr::Exit(number) => Next::Exited(*number),
    }
}

// SET of a class.
fn assign(kind: Kind, part: &Part, input: &Seen<'_>, values: &mut Values)
    ensures { values.new ≡ with_class kind (part_class part.now input.now values.old) values.old }
{
    let class = class(part, input, values);
    set_class(kind, class, values);
}

// WRITE.
fn write(kind: Kind, parts: &[Part], input: &Seen<'_>, values: &Values, slate: &mut Slate)
    ensures { slate.new ≡ with_line kind (parts_line parts.now input.now values.now) slate.old }
{
    slate.write(kind, line(parts, input, values));
}
