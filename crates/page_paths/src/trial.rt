//! What is shown of an ALLOC that isn't made.

/// What is shown of an ALLOC that isn't made (docs/manual/smsd.md, "What pages show").
#[derive(Clone, Copy, Debug, PartialEq, Eq)]
pub enum Trial {
    /// The classes that it would get.
    Classes,
    /// What the routines would do, statement by statement.
    Runs,
}
