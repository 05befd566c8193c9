//! A run as a case writes it, and where what it comes to differs from that.
use crate::database::Database;
use crate::ended::Asked;
use crate::filling::{fill, is_filled_by};
use crate::outcome::{Faults, Outcome, outcome_of};
use std::alloc::{AllocError, Global};
use std::sync::Wait;
use std::thread::Threads;

/// A run as it is written; its texts may have holes, which the columns of a row fill.
#[derive(Drop)]
pub struct Run {
    /// The program and its words.
    pub words: String,
    pub faults: Faults,
    /// How many faults the keeper is to have counted at the end, where that is said.
    pub counted: Option<u64>,
    pub input: String,
    /// Lines that say what is done with its database.
    pub orders: String,
    /// The exit status that is wanted; empty as long as none is.
    pub status: String,
    /// The first lines of standard error that are wanted.
    pub says: String,
    pub output: String,
    /// How many empty lines stand behind the output, as far as it is read.
    pub empty_lines: u32,
}

/// The run's texts with their holes filled, and what it came to.
#[derive(Drop)]
pub struct Compared {
    pub words: String,
    pub input: String,
    pub found: Outcome,
    pub why: Option<String>,
}

/// The run's texts with their holes filled.
#[derive(Drop)]
struct Filled {
    words: String,
    input: String,
    orders: String,
}

impl Filled {
    fn asked<'a>(&'a self, faults: &'a Faults) -> Asked<'a> {
        Asked {
            words: self.words.as_str(),
            input: self.input.as_str(),
            faults,
            orders: self.orders.as_str(),
        }
    }
}

impl Run {
    pub fn new(alloc: Global) -> Run {
        Run {
            words: String::new(alloc),
            faults: Faults::none(alloc),
            counted: None,
            input: String::new(alloc),
            orders: String::new(alloc),
            status: String::new(alloc),
            says: String::new(alloc),
            output: String::new(alloc),
            empty_lines: 0,
        }
    }

    /// Makes the run, over the database if its words name one, and compares it; None where there is no such program.
    pub fn compare<R: AllocGlobal + Threads + Wait + Sync>(
        &self,
        rt: &R,
        columns: &[&str],
        database: &mut Option<Database>,
    ) -> Result<Option<Compared>, AllocError> {
        let filled = self.filled(rt.alloc(), columns)?;
        let Some(found) = outcome_of(rt, &filled.asked(&self.faults), database)? else {
            return Ok(None);
        };
        self.compared(rt.alloc(), columns, filled, found)
    }

    fn filled(&self, alloc: Global, columns: &[&str]) -> Result<Filled, AllocError> {
        let words = fill(alloc, &self.words, columns)?;
        let input = fill(alloc, &self.input, columns)?;
        Ok(Filled {
            words,
            input,
            orders: fill(alloc, &self.orders, columns)?,
        })
    }

    fn compared(
        &self,
        alloc: Global,
        columns: &[&str],
        filled: Filled,
        found: Outcome,
    ) -> Result<Option<Compared>, AllocError> {
        let why = self.difference(alloc, columns, &found)?;
        let Filled { words, input, .. } = filled;
        Ok(Some(Compared {
            words,
            input,
            found,
            why,
        }))
    }

    // Where what was found isn't what is wanted.
    fn difference(
        &self,
        alloc: Global,
        columns: &[&str],
        found: &Outcome,
    ) -> Result<Option<String>, AllocError> {
        match self.odd_status(alloc, columns, found)? {
            Some(why) => Ok(Some(why)),
            None => self.odd_text(alloc, columns, found),
        }
    }

    // Where what was written, said or counted isn't.
    fn odd_text(
        &self,
        alloc: Global,
        columns: &[&str],
        found: &Outcome,
    ) -> Result<Option<String>, AllocError> {
        match self.odd_output(alloc, columns, &found.output)? {
            Some(why) => Ok(Some(why)),
            None => self.odd_words(alloc, columns, found),
        }
    }

    // Where what was said or counted isn't.
    fn odd_words(
        &self,
        alloc: Global,
        columns: &[&str],
        found: &Outcome,
    ) -> Result<Option<String>, AllocError> {
        match self.odd_says(alloc, columns, &found.says)? {
            Some(why) => Ok(Some(why)),
            None => self.odd_count(alloc, found.counted),
        }
    }

    // Where the status is another.
    fn odd_status(
        &self,
        alloc: Global,
        columns: &[&str],
        found: &Outcome,
    ) -> Result<Option<String>, AllocError> {
        let status = fill(alloc, &self.status, columns)?;
        if is_code(alloc, status.trim(), found.status)? {
            return Ok(None);
        }
        status_told(alloc, status.trim(), found)
    }

    // Where the output is another.
    fn odd_output(
        &self,
        alloc: Global,
        columns: &[&str],
        found: &str,
    ) -> Result<Option<String>, AllocError> {
        let output = fill(alloc, &self.output, columns)?;
        if is_filled_by(&output, found) {
            return Ok(None);
        }
        told(alloc, &output, found)
    }

    // Where something else is said.
    fn odd_says(
        &self,
        alloc: Global,
        columns: &[&str],
        found: &str,
    ) -> Result<Option<String>, AllocError> {
        let says = fill(alloc, &self.says, columns)?;
        if found.starts_with(says.as_str()) {
            return Ok(None);
        }
        told(alloc, &says, found)
    }

    // Where the keeper counted another number of faults.
    fn odd_count(&self, alloc: Global, found: u64) -> Result<Option<String>, AllocError> {
        let wanted = self.counted.unwrap_or(found);
        if wanted == found {
            return Ok(None);
        }
        let why = format!(in alloc; "wanted {wanted} faults of the keeper, came {found}")?;
        Ok(Some(why))
    }
}

fn is_code(alloc: Global, wanted: &str, status: u8) -> Result<bool, AllocError> {
    let code = format!(in alloc; "{status}")?;
    Ok(is_filled_by(wanted, &code))
}

fn status_told(alloc: Global, wanted: &str, found: &Outcome) -> Result<Option<String>, AllocError> {
    let Outcome { status, output, .. } = found;
    let why = format!(in alloc; "wanted status {wanted}, came {status} {output:?}")?;
    Ok(Some(why))
}

fn told(alloc: Global, wanted: &str, found: &str) -> Result<Option<String>, AllocError> {
    let why = format!(in alloc; "wanted {wanted:?}, came {found:?}")?;
    Ok(Some(why))
}
