//! The notes on faults of scripts.
use crate::block_end::end_hint;
use crate::command::misfit_of;
use crate::command_line::CommandLine;
use crate::place::{Place, line_bytes};
use crate::showing::told;
use sms_script::ScriptErr;
use std::alloc::{AllocError, Global};

/// What the fault of this script means, with its line (docs/manual/tool.md, "What a fault means").
pub fn script_note(alloc: Global, text: &[u8], fault: ScriptErr) -> Result<String, AllocError> {
    match fault {
        ScriptErr::BadLine(line) => command_note(alloc, text, line),
        ScriptErr::OpenBlock(line) => {
            let hint = end_hint(behind(text, line));
            let sentence = format!(in alloc; "no ./END ends the deck behind this line{hint}")?;
            word_note(alloc, text, line, 2, &sentence)
        }
        ScriptErr::TooManyLines(line) => {
            let sentence = "this is the 100001st command, and a script has at most 100000";
            word_note(alloc, text, line, 0, sentence)
        }
        ScriptErr::NoMemory => Err(AllocError),
    }
}

/// What it means that the item in this line isn't the one asked there, with the line.
pub fn misplaced_note(alloc: Global, text: &[u8], line: u32) -> Result<String, AllocError> {
    let sentence = "the first request is to be an ACTIVATE, and all others ALLOC";
    word_note(alloc, text, line, 2, sentence)
}

/// What it means that the request in this line is kept for the day behind the script, with the line.
pub fn reserved_note(alloc: Global, text: &[u8], line: u32) -> Result<String, AllocError> {
    let command = CommandLine::new(alloc, line_bytes(text, line as usize))?;
    let is_asker = command.word(0) == b"SMSMGMT".as_slice();
    let number = if is_asker { 0 } else { 3 };
    let sentence = "with --manage the job SMSMGMT is the day's own, and no line may name it";
    word_note(alloc, text, line, number, sentence)
}

// The text behind a line.
fn behind(text: &[u8], line: u32) -> &[u8] {
    let mut rest = text;
    for _ in 0..line {
        rest = match rest.iter().position(|byte| *byte == b'\n') {
            Some(at) => rest.get(at.saturating_add(1)..).unwrap_or(&[]),
            None => &[],
        };
    }
    rest
}

// Where a line stops being a command, and what is wanted there.
fn command_note(alloc: Global, text: &[u8], line: u32) -> Result<String, AllocError> {
    let bytes = line_bytes(text, line as usize);
    let misfit = misfit_of(alloc, bytes)?;
    let wanted = misfit.wanted;
    let sentence = format!(in alloc; "this line is no command; wanted here is {wanted}")?;
    told(alloc, 0, &place_in(bytes, line, misfit.at), &sentence)
}

// A sentence on the word with this number, from 0, of a line.
fn word_note(
    alloc: Global,
    text: &[u8],
    line: u32,
    number: usize,
    sentence: &str,
) -> Result<String, AllocError> {
    let bytes = line_bytes(text, line as usize);
    let at = CommandLine::new(alloc, bytes)?.offset(number);
    told(alloc, 0, &place_in(bytes, line, at), sentence)
}

// The place at this offset of a line.
fn place_in(bytes: &[u8], line: u32, at: usize) -> Place<'_> {
    Place {
        line: line as usize,
        column: at.saturating_add(1),
        text: bytes,
    }
}
