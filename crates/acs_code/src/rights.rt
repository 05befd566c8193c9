//! The right side of a comparison.
ghost use Rattle.std.specs.Prelude.{List};
ghost use Rattle.dsn_mask.specs.MaskText.{mask_of, simple_of};
ghost use Rattle.dsn_mask.specs.Filter.{FilterLists};
ghost use Rattle.acs_tree.specs.Comparands.{Dots, Number, Plain, comparand_of, comparand_or, list_comparand};
ghost use Rattle.acs_tree.specs.Comparands.{mask_comparand, name_comparand, word_beside, word_comparand};
ghost use Rattle.acs_tree.specs.References.{is_whole_name};
ghost use Rattle.acs_tree.specs.Variables.{variable_of};
ghost use Rattle.acs_tree.specs.FilterLists.{list_named};
ghost use Rattle.acs_code.specs.Compiled.{filters_of};
ghost use Rattle.acs_code.specs.Rights.{IsRightIfAny};

use crate::lists::Lists;
use crate::parts::slot;
use crate::right::Right;
use acs_tree::{Ident, Operand, OperandForm, Ref, Variable, VariableKind, number, size};
use dsn_mask::{Mask, Simple};

/// What an operand is beside a variable, if it is something that the variable can be compared with.
pub fn right(lists: &Lists<'_>, left: &Ref, operand: &Operand) -> Option<Right>
    ensures { IsRightIfAny (filters_of lists.now) (comparand_of lists.now left.now operand.now) result }
{
    match &operand.form {
        OperandForm::Literal(text) => Some(Right::Literal(*text)),
        OperandForm::Word(word) => word_right(left, word),
        OperandForm::Var(reference) => name_right(lists, left.is_whole_name(), reference),
    }
}

fn word_right(left: &Ref, word: &Ident) -> Option<Right>
    ensures { (filters : List FilterLists) →
        IsRightIfAny filters (word_comparand (variable_of left.now.name) (is_whole_name left.now) word.now) result }
{
    let variable = Variable::named(&left.name)?;
    word_beside(variable.kind, left.is_whole_name(), word)
}

fn word_beside(kind: VariableKind, whole: bool, word: &Ident) -> Option<Right>
    ensures { (filters : List FilterLists) → IsRightIfAny filters (word_beside kind whole word.now) result }
{
    match kind {
        VariableKind::Text | VariableKind::Volumes | VariableKind::Groups => mask_right(
            whole, word,
        ),
        VariableKind::Number => counted(number(word.bytes(), 0, u64::MAX)),
        VariableKind::Size => counted(size(word.bytes())),
    }
}

fn counted(number: Option<u64>) -> Option<Right>
    ensures { (filters : List FilterLists) → IsRightIfAny filters (comparand_or Number number) result }
{
    match number {
        None => None,
        Some(number) => Some(Right::Number(number)),
    }
}

fn mask_right(whole: bool, word: &Ident) -> Option<Right>
    ensures { (filters : List FilterLists) → IsRightIfAny filters (mask_comparand whole word.now) result }
{
    if whole { dotted(word) } else { plain(word) }
}

fn dotted(word: &Ident) -> Option<Right>
    ensures { (filters : List FilterLists) → IsRightIfAny filters (comparand_or Dots (mask_of word.now)) result }
{
    match Mask::parse(word.bytes()) {
        Ok(mask) => Some(Right::Dots(mask)),
        Err(_) => None,
    }
}

fn plain(word: &Ident) -> Option<Right>
    ensures { (filters : List FilterLists) → IsRightIfAny filters (comparand_or Plain (simple_of word.now)) result }
{
    match Simple::parse(word.bytes()) {
        Ok(simple) => Some(Right::Plain(simple)),
        Err(_) => None,
    }
}

fn name_right(lists: &Lists<'_>, whole: bool, reference: &Ref) -> Option<Right>
    ensures { IsRightIfAny (filters_of lists.now) (name_comparand lists.now whole reference.now) result }
{
    match Variable::named(&reference.name) {
        Some(_) => Some(Right::Var(slot(reference))),
        None => list_right(lists, whole, &reference.name),
    }
}

fn list_right(lists: &Lists<'_>, whole: bool, name: &Ident) -> Option<Right>
    ensures { IsRightIfAny (filters_of lists.now) (list_comparand whole (list_named lists.now name.now)) result }
{
    match lists.filter_place(whole, name) {
        None => None,
        Some(place) => Some(Right::Filter(place)),
    }
}
