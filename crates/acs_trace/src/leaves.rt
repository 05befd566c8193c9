// What a variable holds, one comparison, SET, WRITE and the code of an EXIT, straight from the tree.
ghost use Rattle.std.specs.Prelude.{◌≡◌, List, IfOk, false};
ghost use Rattle.acs_tree.specs.Compares.{texts_compare};
ghost use Rattle.acs_tree.specs.Conditions.{comparison};
ghost use Rattle.acs_tree.specs.Meaning.{code_of};
ghost use Rattle.acs_tree.specs.Setting.{class_set, groups_set, kind_set, sets};
ghost use Rattle.acs_tree.specs.Writing.{joined, line_of};
ghost use Rattle.acs_tree.specs.declared.input.Input.{Input};
ghost use Rattle.acs_tree.specs.declared.values.Values.{Values};
ghost use Rattle.acs_code.specs.Machine.{parts_text};
ghost use Rattle.acs_trace.specs.Sights.{shown};

use crate::scope::Scope;
use acs_code::numbers::code;
use acs_code::parts::{part, slot};
use acs_code::rights::right;
use acs_code::sets::groups;
use acs_code::{Part, Probe};
use acs_run::classes::{class, set_class};
use acs_run::compare::probe_holds;
use acs_run::line::line;
use acs_tree::{Compare, Kind, Operand, Ref, Seen, Values};
use desk_common::Items;
use dsn_mask::Lit;
use std::alloc::{AllocError, Global};

/// What the variable holds, as WRITE writes it.
#[tactic(auto, using(crate::proofs::LeafLemmas::part_alone))]
pub fn shown(reference: &Ref, input: &Seen<'_>, values: &Values) -> Lit
    ensures { result ≡ shown reference.now input.now values.now }
{
    line(&[Part::Var(slot(reference))], input, values)
}

#[tactic(auto, using(crate::proofs::LeafLemmas::beside_nothing))]
pub fn compares(
    scope: &Scope<'_>,
    left: &Ref,
    op: Compare,
    operand: &Operand,
    input: &Seen<'_>,
    values: &Values,
) -> bool
    ensures { result ≡ comparison scope.now left.now op operand.now input.now values.now }
{
    match right(scope.lists(), left, operand) {
        Some(right) => {
            let probe = Probe {
                left: slot(left),
                op,
                right,
            };
            probe_holds(scope.filters(), &probe, input, values)
        }
        None => beside_nothing(op),
    }
}

fn beside_nothing(op: Compare) -> bool
    ensures { result ≡ texts_compare op false }
{
    match op {
        Compare::Ne => true,
        _ => false,
    }
}

/// SET in a routine of that kind; another variable than the kind's is not set.
pub fn set(kind: Kind, target: &Ref, operands: &[Operand], input: &Seen<'_>, values: &mut Values)
    ensures { values.new ≡ (sets kind target.now operands.now input.now values.old).values }
{
    if target.name.bytes() == kind.name() {
        set_kind(kind, operands, input, values);
    }
}

fn set_kind(kind: Kind, operands: &[Operand], input: &Seen<'_>, values: &mut Values)
    ensures { values.new ≡ (kind_set kind operands.now input.now values.old).values }
{
    match kind {
        Kind::DataClas | Kind::StorClas | Kind::MgmtClas => {
            set_first(kind, operands, input, values)
        }
        Kind::StorGrp => values.groups = groups(operands),
    }
}

fn set_first(kind: Kind, operands: &[Operand], input: &Seen<'_>, values: &mut Values)
    ensures { values.new ≡ (class_set kind operands.now input.now values.old).values }
{
    if let Some(operand) = operands.first() {
        let class = class(&part(&operand.form), input, values);
        set_class(kind, class, values);
    }
}

/// The line that WRITE writes.
pub fn line_of(
    alloc: Global,
    operands: &[Operand],
    input: &Seen<'_>,
    values: &Values,
) -> Result<Lit, AllocError>
    ensures { IfOk result (λ line. line ≡ line_of operands.now input.now values.now) }
{
    let parts = parts(alloc, operands)?;
    Ok(line(parts.as_slice(), input, values))
}

fn parts(alloc: Global, operands: &[Operand]) -> Result<Items<Part>, AllocError>
    ensures { IfOk result (λ parts. (input : Input) (values : Values) →
        parts_text parts input values ≡ joined operands.now input values) }
{
    let mut parts = Items::new(alloc);
    for operand in operands {
        parts.push(part(&operand.form))?;
    }
    Ok(parts)
}

pub fn exit_code(number: &Option<Operand>) -> u16
    ensures { result ≡ code_of number.now }
{
    match number {
        None => 0,
        Some(operand) => code(&operand.form),
    }
}
