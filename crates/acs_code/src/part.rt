// A part of a line.
use crate::slot::Slot;
use dsn_mask::Lit;

/// A part of a line that is written, or what a class is set to.
#[derive(Clone, Copy)]
pub enum Part {
    Literal(Lit),
    Var(Slot),
}
