// One comparison.
use crate::right::Right;
use crate::slot::Slot;
use acs_tree::Compare;

/// A variable, a comparison and what the variable is compared with.
#[derive(Clone, Copy)]
pub struct Probe {
    pub left: Slot,
    pub op: Compare,
    pub right: Right,
}
