// What is known of a variable by its name.
use crate::kind::Kind;

/// What a variable holds.
#[derive(Clone, Copy, Debug, PartialEq, Eq)]
pub enum VariableKind {
    Text,
    Number,
    /// A number of KB.
    Size,
    /// The volumes of the request.
    Volumes,
    /// The storage groups that were set.
    Groups,
}

/// Whether a variable has an index, and up to which number. An index counts from 1.
#[derive(Clone, Copy, Debug, PartialEq, Eq)]
pub enum Indexing {
    Never,
    Maybe(u64),
    Always(u64),
}

/// What is known of a variable by its name.
#[derive(Clone, Copy, Debug, PartialEq, Eq)]
pub struct Variable {
    pub kind: VariableKind,
    pub indexing: Indexing,
    /// The kind of routine that sets a read-write variable; none sets a read-only one.
    pub set_by: Option<Kind>,
}
