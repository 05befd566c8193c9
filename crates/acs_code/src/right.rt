// The right side of a comparison.
use crate::slot::Slot;
use dsn_mask::{Lit, Mask, Simple};

/// What a variable is compared with. A filter list is told by its place among the code's filters, and a
/// size by its number of KB.
#[derive(Clone, Copy)]
pub enum Right {
    Literal(Lit),
    Dots(Mask),
    Plain(Simple),
    Filter(u64),
    Var(Slot),
    Number(u64),
}
