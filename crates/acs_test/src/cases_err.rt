//! Why an input can't be compared.
use sms_construct::Fault;
use std::fmt;
use thiserror::Error;

/// One of the two decks.
#[derive(Clone, Copy, Debug, PartialEq, Eq)]
pub enum Side {
    Old,
    New,
}

/// Why an input can't be compared: its first fault, or want of memory (docs/manual/tool.md, "Comparing two decks").
#[derive(Clone, Copy, Error)]
pub enum CasesErr {
    /// The line with this number, from 1, is the first that isn't as the layout asks; where the input ends too
    /// early, it is the number behind the last line.
    #[error("line {0} isn't as the layout asks")]
    Layout(u32),
    /// The deck of this side has this first fault.
    #[error("the deck {0:?} has a fault")]
    Deck(Side, Fault),
    /// The record with this number has another number of fields than the header.
    #[error("record {0} has another number of fields than the header")]
    Fields(u32),
    /// The column with this number, from 1, is no column or an earlier one; where one is missing that each table
    /// has, or there is no header, it is the number behind the last column.
    #[error("column {0} of the header is faulty or missing")]
    Header(u32),
    /// The record with this number is no case.
    #[error("record {0} is no case")]
    BadCase(u32),
    /// There are more than 10,000 cases.
    #[error("there are more than 10,000 cases")]
    TooMany,
    #[error("out of memory")]
    NoMemory,
}

// A deck's fault has no text of its own here, so it is shown as its sentence.
impl fmt::Debug for CasesErr {
    fn fmt<W: fmt::Write>(&self, f: &mut fmt::Formatter<W>) -> fmt::Result {
        fmt::Display::fmt(self, f)
    }
}
