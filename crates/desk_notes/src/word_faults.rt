//! What is wrong with words that the program doesn't know.
use crate::forms::{fits, limits_of, nearest_form, part_of};
use crate::word_hints::hint_of;
use fault_notes::shown;
use std::alloc::{AllocError, Global};

// The most bytes of a word that are quoted.
const MAX_QUOTE: usize = 60;

const FIRST: &str = "the first word is run, gen or serve, or --help or --version alone";

const HELP: &str = "smsctl --help says what each does";

/// The first word that isn't as asked, and the list of words to which they are nearest.
pub fn words_note(alloc: Global, words: &[String]) -> Result<String, AllocError> {
    match nearest_form(words) {
        Some(form) => {
            let fault = fault_in(alloc, form, words)?;
            let hint = hint_of(alloc, words)?;
            format!(in alloc;
                "{fault}{hint}; the nearest list of words is smsctl {form}, and {HELP}\n"
            )
        }
        None => {
            let fault = first_fault(alloc, words)?;
            let hint = hint_of(alloc, words)?;
            format!(in alloc; "{fault}{hint}; {FIRST}, and {HELP}\n")
        }
    }
}

// What is wrong with words of which none tells of a list.
fn first_fault(alloc: Global, words: &[String]) -> Result<String, AllocError> {
    match words.first() {
        Some(word) => {
            let word = quoted(alloc, word.as_str())?;
            format!(in alloc; "{word} begins no list of words")
        }
        None => String::from_str(alloc, "there are no words"),
    }
}

// The first word that isn't as this list asks.
fn fault_in(alloc: Global, form: &str, words: &[String]) -> Result<String, AllocError> {
    for (at, word) in words.iter().enumerate() {
        match part_of(form, at) {
            Some(part) if fits(part, word.as_str()) => (),
            Some(part) => return misplaced(alloc, part, word.as_str()),
            None => {
                let word = quoted(alloc, word.as_str())?;
                return format!(in alloc; "{word} is one word too many");
            }
        }
    }
    match part_of(form, words.len()) {
        Some(part) => {
            let given = words.join(alloc, " ")?;
            let wanted = wanted(alloc, part)?;
            format!(in alloc; "{given}: {wanted} is missing")
        }
        None => String::from_str(alloc, "these words are answered by another call"),
    }
}

fn misplaced(alloc: Global, part: &str, word: &str) -> Result<String, AllocError> {
    let word = quoted(alloc, word)?;
    let wanted = wanted(alloc, part)?;
    format!(in alloc; "{word} stands where {wanted} is wanted")
}

// What is to stand in the place of this part of a list.
fn wanted(alloc: Global, part: &str) -> Result<String, AllocError> {
    match limits_of(part) {
        Some((least, most)) => format!(in alloc; "{part}, {least} to {most},"),
        None => String::from_str(alloc, part),
    }
}

fn quoted(alloc: Global, word: &str) -> Result<String, AllocError> {
    let bytes = word.as_bytes();
    let word = shown(alloc, bytes.get(..MAX_QUOTE).unwrap_or(bytes))?;
    format!(in alloc; "'{word}'")
}
