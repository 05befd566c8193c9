//! How many answers had which code.
use crate::code_counts::{CodeCounts, put_code};
use std::alloc::{AllocError, Global};

const REFUSED_DECK: usize = 21;

const FULL_JOURNAL: usize = 24;

const REFUSAL_SENTENCE: &str =
    "an answer refuses a deck (R21): smsc validate, with the deck alone as input, says what is wrong in it\n";

const FULL_SENTENCE: &str =
    "what was answered R24 was not done, since a run has 50000 entries and 200 activations at most; over a file a \
    further run may ask for it\n";

const FAULT_SENTENCE: &str =
    "the records couldn't be written, as on a full disk: ask again, with the same numbers, for what was answered \
    F30, and each acts once; over a file one of them may have been done all the same; what else was done is kept\n";

// What stands before the codes that are summed up: of what was refused, and of all answers.
const REFUSED: &str = "refused: ";

const ANSWERS: &str = "answers: ";

/// How many answers there were, by their codes.
#[derive(Clone, Copy)]
pub struct ReplyCounts {
    done: CodeCounts,
    refused: CodeCounts,
    /// Of how many the change couldn't be recorded: F30.
    faults: u32,
    /// For how many memory was wanting: M31.
    wants: u32,
}

impl ReplyCounts {
    /// None was counted.
    pub fn none() -> Self {
        ReplyCounts {
            done: CodeCounts::none(),
            refused: CodeCounts::none(),
            faults: 0,
            wants: 0,
        }
    }

    /// Counts an answer with the code of this letter and these two digits.
    pub fn add(&mut self, letter: u8, tens: u8, ones: u8) {
        match (letter, tens, ones) {
            (b'F', b'3', b'0') => self.faults = self.faults.saturating_add(1),
            (b'M', b'3', b'1') => self.wants = self.wants.saturating_add(1),
            (b'A', _, b'0'..=b'9') => self.done.add(tens, ones),
            (b'R', _, b'0'..=b'9') => self.refused.add(tens, ones),
            _ => (),
        }
    }

    /// Whether something that was asked for was refused or couldn't be done.
    pub fn has_undone(&self) -> bool {
        self.faults > 0 || self.wants > 0 || self.refused.is_any()
    }

    /// Whether a deck was refused.
    pub fn has_refused_deck(&self) -> bool {
        self.refused.count(REFUSED_DECK) > 0
    }

    /// Notes what they mean that a person should know.
    pub fn note(&self, note: &mut String) {
        if self.faults > 0 {
            let _ = note.push_str(FAULT_SENTENCE);
        }
        if self.has_refused_deck() {
            let _ = note.push_str(REFUSAL_SENTENCE);
        }
        if self.refused.count(FULL_JOURNAL) > 0 {
            let _ = note.push_str(FULL_SENTENCE);
        }
    }

    /// Notes how many answers refused something, by their codes.
    pub fn note_refused(&self, alloc: Global, note: &mut String) {
        keep(note, self.refused_line(alloc));
    }

    /// Notes how many answers there were, by their codes.
    pub fn note_all(&self, alloc: Global, note: &mut String) {
        keep(note, self.all_line(alloc));
    }

    // How many answers refused something, by code; empty where none did.
    fn refused_line(&self, alloc: Global) -> Result<String, AllocError> {
        let mut line = String::new(alloc);
        self.refused.put(alloc, &mut line, REFUSED, "R")?;
        end_line(&mut line)?;
        Ok(line)
    }

    // How many answers there were, by code; empty where there was none.
    fn all_line(&self, alloc: Global) -> Result<String, AllocError> {
        let mut line = String::new(alloc);
        self.done.put(alloc, &mut line, ANSWERS, "A")?;
        self.refused.put(alloc, &mut line, ANSWERS, "R")?;
        put_code(alloc, &mut line, ANSWERS, "F", 30, self.faults)?;
        put_code(alloc, &mut line, ANSWERS, "M", 31, self.wants)?;
        end_line(&mut line)?;
        Ok(line)
    }
}

// Ends a line, if anything stands in it.
fn end_line(line: &mut String) -> Result<(), AllocError> {
    if line.is_empty() {
        return Ok(());
    }
    line.push_str("\n")
}

// Puts a line behind a note, where there is memory for it.
fn keep(note: &mut String, line: Result<String, AllocError>) {
    if let Ok(line) = line {
        let _ = note.push_str(&line);
    }
}
