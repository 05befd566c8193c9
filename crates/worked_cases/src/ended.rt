//! What a run is asked, and how it ends.
use crate::outcome::Faults;
use sms_base::{MemSink, MemSource};

/// A run with its holes filled.
#[derive(Clone, Copy)]
pub struct Asked<'a> {
    /// The program and its words.
    pub words: &'a str,
    pub input: &'a str,
    pub faults: &'a Faults,
    /// Lines that say what is done with the database of the run.
    pub orders: &'a str,
}

impl<'a> Asked<'a> {
    /// A run with these faults, and without a database of others.
    pub fn plain(words: &'a str, input: &'a str, faults: &'a Faults) -> Asked<'a> {
        Asked {
            words,
            input,
            faults,
            orders: "",
        }
    }
}

/// The source and the sink of a run.
#[derive(Drop)]
pub struct Streams {
    pub src: MemSource,
    pub out: MemSink,
}

/// How a run ended.
#[derive(Drop)]
pub struct Ended {
    pub status: u8,
    /// What is said on standard error: the fault of a script, and what a fault means.
    pub says: String,
    /// The faults that the keeper counted.
    pub counted: u64,
    /// Lines behind the output: what links were sent, what a database holds.
    pub behind: String,
}
