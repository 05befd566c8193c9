//! Variables and parts of lines.
ghost use Rattle.std.specs.Prelude.{◌≡◌, []};
ghost use Rattle.acs_tree.specs.Setting.{class_from};
ghost use Rattle.acs_tree.specs.Writing.{written};
ghost use Rattle.acs_tree.specs.Variables.{index_of};
ghost use Rattle.acs_tree.specs.declared.input.Input.{Input};
ghost use Rattle.acs_tree.specs.declared.values.Values.{Values};
ghost use Rattle.acs_code.specs.Machine.{part_class, part_text};

use crate::numbers;
use crate::part::Part;
use crate::slot::Slot;
use acs_tree::{OperandForm, Ref};
use dsn_mask::Lit;

/// The variable and its index.
pub fn slot(reference: &Ref) -> Slot
    ensures { result ≡ record { name = reference.now.name; index = index_of reference.now.index } }
{
    Slot {
        name: reference.name,
        index: numbers::index(&reference.index),
    }
}

/// An operand as a part of a line or as what a class is set to.
pub fn part(form: &OperandForm) -> Part
    ensures text { (input : Input) (values : Values) → part_text result input values ≡ written form.now input values }
    ensures class { (input : Input) (values : Values) →
        part_class result input values ≡ class_from form.now input values }
{
    match form {
        OperandForm::Literal(text) => Part::Literal(*text),
        OperandForm::Word(_) => Part::Literal(nothing()),
        OperandForm::Var(reference) => Part::Var(slot(reference)),
    }
}

fn nothing() -> Lit
    ensures { result ≡ [] }
{
    Lit::new(b"").unwrap()
}
