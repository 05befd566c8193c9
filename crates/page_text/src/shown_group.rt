//! Storage groups as their page shows them.

use crate::group_row::GroupRow;

/// A storage group with the sums of its volumes, and how its deck defines it: its thresholds in percent, whether it is
/// an overflow group, and from how many cylinders on cylinder-managed space is tried first.
#[derive(Clone, Copy)]
pub struct ShownGroup {
    pub row: GroupRow,
    pub high: u8,
    pub low: u8,
    pub overflow: bool,
    pub breakpoint: u32,
}
