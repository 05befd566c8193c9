// Why a text is no routine of a kind.
use thiserror::Error;

/// The part of the translator that met a fault: the scanner, the parser or the checks.
#[derive(Clone, Copy, Debug, PartialEq, Eq)]
pub enum Stage {
    Scanner,
    Parser,
    Checks,
}

/// A fault of a routine's text, as L1 to L4, P1 to P3 or C1 to C13 with its place: a byte of the
/// text for the scanner, otherwise a token, both counted from 0. For an end too early it is the
/// number of tokens (docs/manual/acs-language.md, Faults, Places of faults and Checks).
#[derive(Clone, Copy, Debug, PartialEq, Eq)]
pub struct RoutineFault {
    pub stage: Stage,
    pub number: u8,
    pub at: u32,
}

/// Why a text was not translated.
#[derive(Clone, Copy, Debug, PartialEq, Eq, Error)]
pub enum TranslateErr {
    #[error("the routine has a fault")]
    Fault(RoutineFault),
    #[error("out of memory")]
    NoMemory,
}
