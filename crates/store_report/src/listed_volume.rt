//! Volumes as lists show them.

use sms_construct::VolRow;

/// A volume with the thresholds of its storage group in percent, and the tracks of its longest gap.
#[derive(Clone, Copy)]
pub struct ListedVolume {
    pub row: VolRow,
    pub high: u8,
    pub low: u8,
    pub longest_gap: u32,
}
