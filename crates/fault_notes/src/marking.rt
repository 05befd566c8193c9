//! Where a fault of a routine is marked for a person.
use crate::routine_text::RoutineText;
use acs_lex::TokenForm;
use dsn_mask::Simple;
use sms_construct::{Stage, TextFault};
use std::alloc::{AllocError, Global};

/// The fault at the token that a person has to change: where a filter list doesn't suit the variable that it stands
/// beside, that is its first entry that doesn't.
pub fn marked(alloc: Global, text: &[u8], fault: &TextFault) -> Result<TextFault, AllocError> {
    let at = match (fault.stage, fault.number) {
        (Stage::Checks, 9) => entry_at(alloc, text, fault.at)?,
        _ => fault.at,
    };
    Ok(TextFault { at, ..*fault })
}

// The number of the entry, where this token names a list; else of the token.
fn entry_at(alloc: Global, text: &[u8], at: u32) -> Result<u32, AllocError> {
    let Some(routine) = RoutineText::new(alloc, text) else {
        return Ok(at);
    };
    let number = at as usize;
    if !routine.has_form(number, TokenForm::Variable) {
        return Ok(at);
    }
    let entry = match list_named(&routine, number) {
        Some(list) => unfit_entry(alloc, &routine, list)?,
        None => None,
    };
    Ok(match entry {
        Some(entry) if entry <= u32::MAX as usize => entry as u32,
        _ => at,
    })
}

// The number of the first entry of a filter list, by the token that names it somewhere.
fn list_named(routine: &RoutineText<'_>, number: usize) -> Option<usize> {
    let name = name_at(routine, number);
    (0..number)
        .find(|at| {
            routine.is_word(*at, b"FILTLIST")
                && name_at(routine, at.saturating_add(1)).eq_ignore_ascii_case(name)
        })
        .map(|at| at.saturating_add(2))
}

// The name that the token is, without an ampersand.
fn name_at<'a>(routine: &RoutineText<'a>, number: usize) -> &'a [u8] {
    match routine.bytes(number) {
        [b'&', name @ ..] => name,
        name => name,
    }
}

// The first word among the entries from here on that is no simple mask.
fn unfit_entry(
    alloc: Global,
    routine: &RoutineText<'_>,
    from: usize,
) -> Result<Option<usize>, AllocError> {
    let mut depth = 0usize;
    for at in from..routine.count() {
        match routine.bytes(at) {
            b"(" => depth = depth.saturating_add(1),
            b")" => depth = depth.saturating_sub(1),
            _ if depth == 0 => {
                if !is_part(routine, at) {
                    return Ok(None);
                }
            }
            bytes => {
                if routine.has_form(at, TokenForm::Word) && !is_simple(alloc, bytes)? {
                    return Ok(Some(at));
                }
            }
        }
    }
    Ok(None)
}

fn is_part(routine: &RoutineText<'_>, at: usize) -> bool {
    routine.is_word(at, b"INCLUDE") || routine.is_word(at, b"EXCLUDE")
}

fn is_simple(alloc: Global, bytes: &[u8]) -> Result<bool, AllocError> {
    let mut word = Vec::from_slice(alloc, bytes)?;
    word.make_ascii_uppercase();
    Ok(Simple::parse(&word).is_ok())
}
