//! What would suit at the place of a routine's fault.
use crate::deck_sentence::around;
use crate::left_side::{left_side, set_target};
use crate::open_parts::open_parts;
use crate::probing::wanted_behind;
use crate::routine_text::RoutineText;
use acs_lex::TokenForm;
use acs_tree::{Indexing, VariableKind};
use dsn_mask::{Mask, Name, Simple};
use sms_construct::{Stage, TextFault};
use std::alloc::{AllocError, Global};

const QUOTE_HINT: &str =
    "; a quote can't stand in a literal, and the one before this ends at its second quote";

const NAME_HINT: &str =
    "; a name is 1 to 8 capitals, digits, #, @ and $, the first no digit, and '' stands alone";

/// What would suit where the fault stands, behind its sentence; empty where no more is known than that. So many lines
/// of the input stand before the routine.
pub fn hint_of(
    alloc: Global,
    text: &[u8],
    fault: &TextFault,
    lines_before: usize,
) -> Result<String, AllocError> {
    let Some(routine) = RoutineText::new(alloc, text) else {
        return Ok(String::new(alloc));
    };
    let at = fault.at as usize;
    match (fault.stage, fault.number) {
        (Stage::Parser, 1) => place_hint(alloc, text, &routine, at),
        (Stage::Parser, 2) => end_hint(alloc, text, &routine, lines_before),
        (Stage::Checks, 3) => target_hint(alloc, &routine),
        (Stage::Checks, 6) => kind_hint(alloc, &routine, at),
        (Stage::Checks, 8) => range_hint(alloc, &routine, at),
        (Stage::Checks, 9) => mask_hint(alloc, &routine, at),
        _ => Ok(String::new(alloc)),
    }
}

// What may stand in the place of a token that can't.
fn place_hint(
    alloc: Global,
    text: &[u8],
    routine: &RoutineText<'_>,
    at: usize,
) -> Result<String, AllocError> {
    if is_second_literal(routine, at) {
        return String::from_str(alloc, QUOTE_HINT);
    }
    let from = routine.spot(at).map_or(text.len(), |spot| spot.from);
    let front = text.get(..from).unwrap_or(text);
    let wanted = wanted_behind(alloc, front, at)?;
    format!(in alloc; "; wanted here is {wanted}")
}

// Whether two literals stand side by side, as where a quote was doubled.
fn is_second_literal(routine: &RoutineText<'_>, at: usize) -> bool {
    let Some(before) = at.checked_sub(1) else {
        return false;
    };
    match (routine.token(before), routine.token(at)) {
        (Some(one), Some(other)) => {
            one.form == TokenForm::Literal
                && other.form == TokenForm::Literal
                && one.to == other.from
        }
        _ => false,
    }
}

// What may follow the last token, and which DO or SELECT has no END.
fn end_hint(
    alloc: Global,
    text: &[u8],
    routine: &RoutineText<'_>,
    lines_before: usize,
) -> Result<String, AllocError> {
    let wanted = wanted_behind(alloc, text, routine.count())?;
    let open = open_parts(alloc, routine, routine.count())?;
    match open.as_slice().last() {
        Some(part) => {
            let word = part.word;
            let line = routine.line(part.number).saturating_add(lines_before);
            format!(in alloc; "; wanted here is {wanted}, and the {word} of line {line} has no END")
        }
        None => format!(in alloc; "; wanted here is {wanted}"),
    }
}

// What this routine may set, by its head.
fn target_hint(alloc: Global, routine: &RoutineText<'_>) -> Result<String, AllocError> {
    let number = if is_number(routine.bytes(1)) { 2 } else { 1 };
    let head = match routine.bytes(number) {
        [b'&', name @ ..] => name,
        name => name,
    };
    around(alloc, "; it sets &", head, " alone")
}

fn is_number(bytes: &[u8]) -> bool {
    !bytes.is_empty() && bytes.iter().all(|byte| byte.is_ascii_digit())
}

// What suits an operand's place by what it stands beside, or the index that a variable takes.
fn kind_hint(alloc: Global, routine: &RoutineText<'_>, at: usize) -> Result<String, AllocError> {
    if let Some(hint) = index_hint(alloc, routine, at)? {
        return Ok(hint);
    }
    if let Some(target) = set_target(routine, at) {
        return value_hint(alloc, routine, at, target);
    }
    let Some(left) = left_side(alloc, routine, at)? else {
        return Ok(String::new(alloc));
    };
    match routine.variable(left) {
        Some(variable) => around(
            alloc,
            "; beside ",
            routine.bytes(left),
            beside(variable.kind),
        ),
        None => Ok(String::new(alloc)),
    }
}

// What stands beside a variable of this kind.
fn beside(kind: VariableKind) -> &'static str {
    match kind {
        VariableKind::Text | VariableKind::Groups => {
            " stand a text in quotes, a mask, a filter list and a text variable"
        }
        VariableKind::Number => " stand a number, digits alone, and a number variable",
        VariableKind::Size => {
            " stand a size, digits and KB, MB or GB as in 100MB, and a size variable"
        }
        VariableKind::Volumes => " stand a text in quotes, a mask and a filter list",
    }
}

// The index that a variable takes, where it has one and takes none or has none and needs one.
fn index_hint(
    alloc: Global,
    routine: &RoutineText<'_>,
    at: usize,
) -> Result<Option<String>, AllocError> {
    let Some(variable) = routine.variable(at) else {
        return Ok(None);
    };
    let has_index = routine.bytes(at.saturating_add(1)) == b"(".as_slice();
    match (variable.indexing, has_index) {
        (Indexing::Never, true) => String::from_str(alloc, "; it takes no index").map(Some),
        (Indexing::Always(most), false) => {
            format!(in alloc; "; it needs an index, 1 to {most}, in parentheses").map(Some)
        }
        _ => Ok(None),
    }
}

// What may stand in a SET of this variable.
fn value_hint(
    alloc: Global,
    routine: &RoutineText<'_>,
    at: usize,
    target: usize,
) -> Result<String, AllocError> {
    if is_name(alloc, routine, at)? {
        return around(
            alloc,
            "; a name stands in quotes there, as '",
            routine.bytes(at),
            "'",
        );
    }
    let after = match routine.variable(target) {
        Some(variable) if variable.kind == VariableKind::Groups => " may be set to names in quotes",
        _ => " may be set to a name in quotes, or to a text variable",
    };
    around(alloc, "; ", routine.bytes(target), after)
}

// Whether the token is a word that is a name, in either case.
fn is_name(alloc: Global, routine: &RoutineText<'_>, at: usize) -> Result<bool, AllocError> {
    let mut word = Vec::from_slice(alloc, routine.bytes(at))?;
    word.make_ascii_uppercase();
    Ok(routine.has_form(at, TokenForm::Word) && Name::new(&word).is_some())
}

// The range of an index, or the form of a name.
fn range_hint(alloc: Global, routine: &RoutineText<'_>, at: usize) -> Result<String, AllocError> {
    if set_target(routine, at).is_some() {
        return String::from_str(alloc, NAME_HINT);
    }
    let indexed = at.saturating_sub(2);
    match (
        routine.bytes(at.saturating_sub(1)),
        routine.variable(indexed),
    ) {
        (b"(", Some(variable)) => match variable.indexing {
            Indexing::Maybe(most) | Indexing::Always(most) => {
                let after = format!(in alloc; " takes an index from 1 to {most}")?;
                around(alloc, "; ", routine.bytes(indexed), &after)
            }
            Indexing::Never => Ok(String::new(alloc)),
        },
        _ => Ok(String::new(alloc)),
    }
}

// Why a word is no mask.
fn mask_hint(alloc: Global, routine: &RoutineText<'_>, at: usize) -> Result<String, AllocError> {
    let mut word = Vec::from_slice(alloc, routine.bytes(at))?;
    word.make_ascii_uppercase();
    if let Err(fault) = Mask::parse(&word) {
        return format!(in alloc; "; {fault}, counted from 0");
    }
    match Simple::parse(&word) {
        Err(_) => String::from_str(
            alloc,
            "; beside a variable other than &DSN without an index a mask has no **",
        ),
        Ok(_) => Ok(String::new(alloc)),
    }
}
