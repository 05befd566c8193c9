//! What an operand of a routine stands beside.
use crate::open_parts::open_parts;
use crate::routine_text::RoutineText;
use acs_lex::TokenForm;
use std::alloc::{AllocError, Global};

/// The number of the variable that a SET gives the operand with this number to.
pub fn set_target(routine: &RoutineText<'_>, number: usize) -> Option<usize> {
    let mut at = number;
    while at > 0 {
        at -= 1;
        if is_equals(routine, at) {
            let target = at.checked_sub(1)?;
            return if is_target(routine, target) {
                Some(target)
            } else {
                None
            };
        }
        if !is_value(routine, at) {
            return None;
        }
    }
    None
}

fn is_equals(routine: &RoutineText<'_>, at: usize) -> bool {
    routine.bytes(at) == b"=".as_slice() || routine.is_word(at, b"EQ")
}

// Whether the token is a variable behind SET.
fn is_target(routine: &RoutineText<'_>, at: usize) -> bool {
    routine.has_form(at, TokenForm::Variable)
        && at
            .checked_sub(1)
            .is_some_and(|set| routine.is_word(set, b"SET"))
}

// Whether the token may stand before another value of a SET.
fn is_value(routine: &RoutineText<'_>, at: usize) -> bool {
    routine.bytes(at) == b",".as_slice()
        || routine.has_form(at, TokenForm::Literal)
        || routine.has_form(at, TokenForm::Variable)
}

/// The number of the variable that the operand with this number is compared with: the left side of its comparison, or
/// what its SELECT names.
pub fn left_side(
    alloc: Global,
    routine: &RoutineText<'_>,
    number: usize,
) -> Result<Option<usize>, AllocError> {
    let Some(before) = number.checked_sub(1) else {
        return Ok(None);
    };
    if routine.is_comparison(before) {
        Ok(variable_before(routine, before))
    } else {
        subject_at(alloc, routine, number)
    }
}

// The variable, with or without an index, that stands before a token.
fn variable_before(routine: &RoutineText<'_>, at: usize) -> Option<usize> {
    let last = at.checked_sub(1)?;
    let first = if routine.bytes(last) == b")".as_slice() {
        last.checked_sub(3)?
    } else {
        last
    };
    if routine.has_form(first, TokenForm::Variable) {
        Some(first)
    } else {
        None
    }
}

// The variable that the innermost SELECT names.
fn subject_at(
    alloc: Global,
    routine: &RoutineText<'_>,
    number: usize,
) -> Result<Option<usize>, AllocError> {
    let open = open_parts(alloc, routine, number)?;
    let Some(part) = open.as_slice().last() else {
        return Ok(None);
    };
    let subject = part.number.saturating_add(2);
    let is_named = part.word == "SELECT"
        && routine.bytes(part.number.saturating_add(1)) == b"(".as_slice()
        && routine.has_form(subject, TokenForm::Variable);
    Ok(if is_named { Some(subject) } else { None })
}
