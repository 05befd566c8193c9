// Operands that cover others.
ghost use Rattle.std.specs.Prelude.{◌≡◌};
ghost use Rattle.acs_tree.specs.FilterLists.{is_mask, is_simple};
ghost use Rattle.acs_tree.specs.References.{is_counted_kind, takes_masks};
ghost use Rattle.acs_lint.specs.Covering.{covers, is_same_index, is_same_operand, is_same_ref, rank_of};
ghost use Rattle.acs_lint.specs.Covering.{right_implies, test_implies, word_covers};

use crate::mask_covering::mask_covers;
use crate::piece_covering::piece_covers;
use acs_tree::{Compare, Ident, Operand, OperandForm, Ref, Variable, VariableKind};
use desk_common::{Boxed, are_same};
use dsn_mask::{Mask, Simple};

fn is_same_index(one: &Option<Boxed<Ident>>, other: &Option<Boxed<Ident>>) -> bool
    ensures { result ≡ is_same_index one.now other.now }
{
    match one {
        None => other.is_none(),
        Some(one) => match other {
            None => false,
            Some(other) => are_same(one.get().bytes(), other.get().bytes()),
        },
    }
}

fn is_same_ref(one: &Ref, other: &Ref) -> bool
    ensures { result ≡ is_same_ref one.now other.now }
{
    are_same(one.name.bytes(), other.name.bytes()) && is_same_index(&one.index, &other.index)
}

fn is_same_operand(one: &OperandForm, other: &OperandForm) -> bool
    ensures { result ≡ is_same_operand one.now other.now }
{
    match (one, other) {
        (OperandForm::Literal(one), OperandForm::Literal(other)) => {
            are_same(one.bytes(), other.bytes())
        }
        (OperandForm::Word(one), OperandForm::Word(other)) => are_same(one.bytes(), other.bytes()),
        (OperandForm::Var(one), OperandForm::Var(other)) => is_same_ref(one, other),
        _ => false,
    }
}

pub fn is_mask(word: &Ident) -> bool
    ensures { result ≡ is_mask word.now }
{
    Mask::parse(word.bytes()).is_ok()
}

pub fn is_simple(word: &Ident) -> bool
    ensures { result ≡ is_simple word.now }
{
    Simple::parse(word.bytes()).is_ok()
}

fn is_counted_kind(kind: VariableKind) -> bool
    ensures { result ≡ is_counted_kind kind }
{
    match kind {
        VariableKind::Number | VariableKind::Size => true,
        VariableKind::Text | VariableKind::Volumes | VariableKind::Groups => false,
    }
}

fn takes_masks(left: &Ref) -> bool
    ensures { result ≡ takes_masks left.now }
{
    match Variable::named(&left.name) {
        None => false,
        Some(variable) => !is_counted_kind(variable.kind),
    }
}

/// Whether a mask that is compared with a variable covers a mask or a text.
fn word_covers(left: &Ref, wide: &Ident, text: &[u8]) -> bool
    ensures { result ≡ word_covers left.now wide.now text.now }
{
    if left.is_whole_name() {
        mask_covers(wide.bytes(), text) && is_mask(wide) && takes_masks(left)
    } else {
        piece_covers(wide.bytes(), text) && is_simple(wide) && takes_masks(left)
    }
}

/// Whether an operand beside a variable covers another.
pub fn covers(left: &Ref, wide: &OperandForm, other: &OperandForm) -> bool
    ensures { result ≡ covers left.now wide.now other.now }
{
    match (wide, other) {
        (OperandForm::Literal(wide), OperandForm::Literal(text)) => {
            are_same(wide.bytes(), text.bytes())
        }
        (OperandForm::Word(wide), OperandForm::Literal(text)) => {
            word_covers(left, wide, text.bytes())
        }
        (OperandForm::Word(wide), OperandForm::Word(word)) => {
            are_same(wide.bytes(), word.bytes()) || word_covers(left, wide, word.bytes())
        }
        (OperandForm::Var(wide), OperandForm::Var(reference)) => is_same_ref(wide, reference),
        _ => false,
    }
}

fn rank_of(op: Compare) -> u8
    ensures { result ≡ rank_of op }
{
    op as u8
}

fn right_implies(left: &Ref, op: Compare, right: &OperandForm, other: &OperandForm) -> bool
    ensures { result ≡ right_implies left.now op right.now other.now }
{
    match op {
        Compare::Eq => covers(left, other, right),
        Compare::Ne => covers(left, right, other),
        _ => is_same_operand(right, other),
    }
}

/// Whether a comparison holds only where another does.
pub fn test_implies(
    left: &Ref,
    op: Compare,
    right: &Operand,
    other_left: &Ref,
    other_op: Compare,
    other_right: &Operand,
) -> bool
    ensures { result ≡ test_implies left.now op right.now other_left.now other_op other_right.now }
{
    is_same_ref(left, other_left)
        && rank_of(op) == rank_of(other_op)
        && right_implies(left, op, &right.form, &other_right.form)
}
