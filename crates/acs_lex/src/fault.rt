// Why a text has no tokens.

use thiserror::Error;

/// Why a text was refused, with the place of the byte that shows it (docs/manual/acs-language.md, Faults).
#[derive(Clone, Copy, Debug, PartialEq, Eq, Error)]
pub enum LexErr {
    #[error("the comment at byte {0} has no end")]
    OpenComment(u32),
    #[error("the literal at byte {0} has no end in its line")]
    OpenLiteral(u32),
    #[error("byte {0} begins no token, or may not stand in a literal")]
    BadByte(u32),
    #[error("the token at byte {0} is too long")]
    LongWord(u32),
    #[error("out of memory")]
    NoMemory,
}
