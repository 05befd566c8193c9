//! How many answers had each code of one letter.
use std::alloc::{AllocError, Global};

// The codes with one letter.
const CODES: usize = 100;

/// How many answers had each code of one letter.
#[derive(Clone, Copy)]
pub struct CodeCounts {
    counts: [u32; CODES],
}

impl CodeCounts {
    /// None was counted.
    pub fn none() -> Self {
        CodeCounts { counts: [0; CODES] }
    }

    /// Counts an answer with the code of these two digits.
    pub fn add(&mut self, tens: u8, ones: u8) {
        let code = digit(tens).saturating_mul(10).saturating_add(digit(ones));
        if let Some(count) = self.counts.get_mut(code) {
            *count = count.saturating_add(1);
        }
    }

    /// How many had this code.
    pub fn count(&self, code: usize) -> u32 {
        match self.counts.get(code) {
            Some(count) => *count,
            None => 0,
        }
    }

    /// Whether any was counted.
    pub fn is_any(&self) -> bool {
        self.counts.iter().any(|count| *count > 0)
    }

    /// Puts the codes that were counted behind a line, each with how many there were; before the first of the line its
    /// head.
    pub fn put(
        &self,
        alloc: Global,
        line: &mut String,
        head: &str,
        letter: &str,
    ) -> Result<(), AllocError> {
        for (code, count) in self.counts.iter().enumerate() {
            put_code(alloc, line, head, letter, code, *count)?;
        }
        Ok(())
    }
}

/// Puts a code behind a line, with how many answers had it, if any had.
pub fn put_code(
    alloc: Global,
    line: &mut String,
    head: &str,
    letter: &str,
    code: usize,
    count: u32,
) -> Result<(), AllocError> {
    if count == 0 {
        return Ok(());
    }
    let before = if line.is_empty() { head } else { ", " };
    let entry = format!(in alloc; "{before}{letter}{code:02} {count}")?;
    line.push_str(&entry)
}

fn digit(byte: u8) -> usize {
    byte.saturating_sub(b'0') as usize
}
