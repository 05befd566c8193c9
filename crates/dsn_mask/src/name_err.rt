//! Why a text is no data set name.
use thiserror::Error;

/// The first fault of a text, from the left. Places count from 0, qualifiers from 1
/// (docs/manual/names.md, "Data set names").
#[derive(Clone, Copy, Debug, PartialEq, Eq, Error)]
pub enum NameErr {
    /// The text has no byte.
    #[error("the name is empty")]
    Empty,
    /// The text has more than 44 bytes.
    #[error("the name has more than 44 bytes")]
    TooLong,
    /// The qualifier of this number is empty or has a ninth byte.
    #[error("qualifier {0} has no byte or more than 8")]
    BadQualifier(u32),
    /// The byte at this place may not stand there.
    #[error("the byte at {0} may not stand there")]
    BadByte(u32),
}
