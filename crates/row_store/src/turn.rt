//! What comes to the calls of a store in memory.
use crate::row::Row;

/// What happens before a call, and what the call comes to.
#[derive(Drop)]
pub struct Turn {
    pub before: Happening,
    pub ending: Ending,
}

/// What happens before a call.
#[derive(Drop)]
pub enum Happening {
    /// Nothing.
    Nothing,
    /// One of the changes to which no answer came is made, if it still can be; they are counted from 0.
    Late(usize),
    /// Another desk takes the prefix.
    Taken,
    /// The desk that took it puts a row.
    Put(Row),
}

/// What a call comes to.
#[derive(Clone, Copy, Debug, PartialEq, Eq)]
pub enum Ending {
    /// It is answered.
    Answered,
    /// It fails, and nothing is done.
    Fails,
    /// No answer comes, and it is done.
    Made,
    /// No answer comes, and it may be done later.
    Waits,
    /// No answer comes, and nothing is done.
    Dropped,
}
