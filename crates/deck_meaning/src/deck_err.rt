//! Why a deck isn't read.
use sms_construct::Fault;
use std::fmt;
use thiserror::Error;

/// Why a deck isn't read: its first fault, or want of memory.
#[derive(Clone, Copy, Error)]
pub enum DeckErr {
    #[error("the deck has a fault")]
    Fault(Fault),
    #[error("out of memory")]
    NoMemory,
}

impl fmt::Debug for DeckErr {
    fn fmt<W: fmt::Write>(&self, f: &mut fmt::Formatter<W>) -> fmt::Result {
        write!(f, "{self}")
    }
}
