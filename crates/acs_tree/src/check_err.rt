// Which check a routine breaks, and where.
use thiserror::Error;

/// A broken check: its number, as C1 to C13 are numbered, and the token (docs/manual/acs-language.md, Checks).
#[derive(Clone, Copy, Debug, PartialEq, Eq, Error)]
#[error("C{number} at {at}")]
pub struct CheckErr {
    pub number: u8,
    pub at: u32,
}
