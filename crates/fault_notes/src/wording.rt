//! What each fault means.
use sms_construct::{Stage, TextFault};

/// A sentence, or one around the bytes at which a fault stands.
#[derive(Clone, Copy)]
pub enum Wording {
    Whole(&'static str),
    Around(&'static str, &'static str),
}

/// The sentence of a fault of a routine (docs/manual/acs-language.md, Faults, Places of faults and Checks).
pub fn wording_of(fault: &TextFault) -> Wording {
    match fault.stage {
        Stage::Scanner => scanner_wording(fault.number),
        Stage::Parser => parser_wording(fault.number),
        Stage::Checks => check_wording(fault.number),
    }
}

fn scanner_wording(number: u8) -> Wording {
    Wording::Whole(match number {
        1 => "this comment has no end",
        2 => "this literal has no closing quote in its line",
        3 => "this byte begins no token, or can't stand in a literal",
        4 => "this is longer than the 64 bytes of a word or a variable, or the 110 of a literal",
        _ => "memory was wanting",
    })
}

fn parser_wording(number: u8) -> Wording {
    match number {
        1 => Wording::Around("", " can't stand here"),
        2 => Wording::Whole("the routine ends here, before it is complete"),
        3 => Wording::Around("with ", " more than 200 constructs are open at once"),
        _ => Wording::Whole("memory was wanting"),
    }
}

fn check_wording(number: u8) -> Wording {
    let (before, after) = match number {
        1 => ("the head ", " is not that of this kind of routine"),
        2 => ("the variable ", " is unknown"),
        3 => ("this kind of routine can't set the variable ", ""),
        4 => ("", " is no variable and no filter list before this place"),
        5 => (
            "the name ",
            " is that of a variable or of an earlier filter list",
        ),
        6 => ("", " doesn't suit here, by its kind or by its index"),
        7 => (
            "",
            " compares the order of texts, and only numbers and sizes have one",
        ),
        8 => ("", " is out of range, or no name of a construct"),
        9 => ("", " is no mask, or none that suits here"),
        10 => (
            "",
            " is the 256th entry of an INCLUDE or EXCLUDE, which has at most 255",
        ),
        11 => ("", " is one value too many, or stands twice"),
        12 => ("the exit code ", " is no number from 0 to 65535"),
        _ => (
            "the variable ",
            " is set by a later routine, and can't be read yet",
        ),
    };
    Wording::Around(before, after)
}
