// A line that a routine wrote.
use crate::kind::Kind;
use dsn_mask::Lit;

/// A written line, and the kind of routine that wrote it.
#[derive(Clone, Copy, PartialEq, Eq)]
pub struct Line {
    pub kind: Kind,
    pub text: Lit,
}
