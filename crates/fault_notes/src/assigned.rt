//! The values that the SET statements of a routine give.
use crate::spot::{Spot, bytes_of, tokens_of};
use acs_lex::TokenForm;
use std::alloc::Global;

/// What a token stands in: a SET statement before its variable, behind it, or among its values, or something else.
#[derive(Clone, Copy)]
enum Part {
    Other,
    Set,
    Target,
    Values,
}

/// The spot of the first value of a SET that is this name in quotes.
pub fn assigned_spot(alloc: Global, text: &[u8], name: &[u8]) -> Option<Spot> {
    let tokens = tokens_of(alloc, text)?;
    let mut part = Part::Other;
    for token in tokens.as_slice() {
        let spot = bytes_of(token);
        let bytes = text.get(spot.from..spot.to).unwrap_or(&[]);
        if is_assigned(part, bytes, name) {
            return Some(spot);
        }
        part = part_behind(part, token.form, bytes);
    }
    None
}

fn is_assigned(part: Part, bytes: &[u8], name: &[u8]) -> bool {
    match (part, bytes) {
        (Part::Values, [b'\'', inside @ .., b'\'']) => inside == name,
        _ => false,
    }
}

// What follows a token of this form.
fn part_behind(part: Part, form: TokenForm, bytes: &[u8]) -> Part {
    match (part, form) {
        (_, TokenForm::Word) if bytes.eq_ignore_ascii_case(b"SET") => Part::Set,
        (Part::Set, TokenForm::Variable) => Part::Target,
        (Part::Target, TokenForm::Word) if bytes.eq_ignore_ascii_case(b"EQ") => Part::Values,
        (Part::Target, TokenForm::Sign) if bytes == b"=".as_slice() => Part::Values,
        (Part::Target, TokenForm::Sign) => Part::Target,
        (Part::Values, TokenForm::Literal | TokenForm::Variable | TokenForm::Sign) => Part::Values,
        _ => Part::Other,
    }
}
