//! Runs of a case of which each meets another fault, or has another front of its input.
use crate::cut::Cut;
use crate::ended::Asked;
use crate::outcome::{Faults, Outcome, outcome_of};
use std::alloc::AllocError;
use std::sync::Wait;
use std::thread::Threads;

/// A case with its holes filled, and what its run without a fault came to.
#[derive(Clone, Copy)]
pub struct Series<'a> {
    pub words: &'a str,
    pub input: &'a str,
    pub whole: &'a Outcome,
}

impl Series<'_> {
    /// The first of so many reads that doesn't end the run with status 3 and nothing written where it fails, or the one
    /// behind them if the run makes that too; none for no reads.
    pub fn odd_read<R: AllocGlobal + Threads + Wait + Sync>(
        &self,
        rt: &R,
        count: u64,
    ) -> Result<Option<u64>, AllocError> {
        if count == 0 {
            return Ok(None);
        }
        for call in 1..count.saturating_add(2) {
            let mut faults = Faults::none(rt.alloc());
            faults.reads.push(call)?;
            let is_as_wanted = if call > count {
                self.ends(rt, &faults, self.whole.status, self.whole.output.as_bytes())?
            } else {
                self.ends(rt, &faults, 3, b"")?
            };
            if !is_as_wanted {
                return Ok(Some(call));
            }
        }
        Ok(None)
    }

    /// The first of so many writes of one byte that doesn't end the run with status 4 and the bytes before it written
    /// where it fails, or the one behind them if the run makes that too; none for no writes.
    pub fn odd_write<R: AllocGlobal + Threads + Wait + Sync>(
        &self,
        rt: &R,
        count: u64,
    ) -> Result<Option<u64>, AllocError> {
        if count == 0 {
            return Ok(None);
        }
        let output = self.whole.output.as_bytes();
        for call in 1..count.saturating_add(2) {
            let mut faults = Faults::none(rt.alloc());
            faults.piece = 1;
            faults.writes.push(call)?;
            let before = call.saturating_sub(1) as usize;
            let is_as_wanted = if call > count {
                self.ends(rt, &faults, self.whole.status, output)?
            } else {
                self.ends(rt, &faults, 4, output.get(..before).unwrap_or(output))?
            };
            if !is_as_wanted {
                return Ok(Some(call));
            }
        }
        Ok(None)
    }

    /// The length of the first front of the input whose run doesn't end as is said of it, or of which nothing is said;
    /// none where nothing is said of any.
    pub fn odd_front<R: AllocGlobal + Threads + Wait + Sync>(
        &self,
        rt: &R,
        cuts: &[Cut],
    ) -> Result<Option<u64>, AllocError> {
        if cuts.is_empty() {
            return Ok(None);
        }
        let mut next = 0u64;
        for cut in cuts {
            if cut.first != next {
                return Ok(Some(next));
            }
            let odd = self.odd_in(rt, cut)?;
            if odd.is_some() {
                return Ok(odd);
            }
            next = cut.last.saturating_add(1);
        }
        Ok(if next == self.input.len() as u64 {
            None
        } else {
            Some(next)
        })
    }

    // The first of the fronts of which this is said whose run ends otherwise.
    fn odd_in<R: AllocGlobal + Threads + Wait + Sync>(
        &self,
        rt: &R,
        cut: &Cut,
    ) -> Result<Option<u64>, AllocError> {
        for length in cut.first..cut.last.saturating_add(1) {
            if !self.is_cut(rt, length as usize, cut.end.as_str())? {
                return Ok(Some(length));
            }
        }
        Ok(None)
    }

    // Whether the run on the input's front of this length ends so.
    fn is_cut<R: AllocGlobal + Threads + Wait + Sync>(
        &self,
        rt: &R,
        length: usize,
        end: &str,
    ) -> Result<bool, AllocError> {
        let bytes = self.input.as_bytes();
        let front = std::str::from_utf8(bytes.get(..length).unwrap_or(bytes)).unwrap_or("");
        let faults = Faults::none(rt.alloc());
        let asked = Asked::plain(self.words, front, &faults);
        let Some(found) = outcome_of(rt, &asked, &mut None)? else {
            return Ok(false);
        };
        Ok(match found.status {
            0 => found.output.ends_with(end),
            5 => found.output.is_empty() && found.says.starts_with(end),
            _ => false,
        })
    }

    // Whether the run with these faults has this status and writes this.
    fn ends<R: AllocGlobal + Threads + Wait + Sync>(
        &self,
        rt: &R,
        faults: &Faults,
        status: u8,
        output: &[u8],
    ) -> Result<bool, AllocError> {
        let asked = Asked::plain(self.words, self.input, faults);
        match outcome_of(rt, &asked, &mut None)? {
            Some(found) => Ok(found.status == status && found.output.as_bytes() == output),
            None => Ok(false),
        }
    }
}
