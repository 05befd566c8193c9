//! Why a text is no script.
use thiserror::Error;

/// The first fault of a script (docs/manual/script.md). Lines count from 1, over all lines of the text.
#[derive(Clone, Copy, Debug, PartialEq, Eq, Error)]
pub enum ScriptErr {
    /// This line is no command.
    #[error("S1 {0}")]
    BadLine(u32),
    /// The deck block of the ACTIVATE in this line has no `./END`.
    #[error("S2 {0}")]
    OpenBlock(u32),
    /// This line has the 100,001st command.
    #[error("S3 {0}")]
    TooManyLines(u32),
    /// Memory was wanting.
    #[error("S4")]
    NoMemory,
}
