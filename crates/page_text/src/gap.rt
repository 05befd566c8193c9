//! Gaps of one volume.

/// Neighbouring tracks of one volume that no data set holds: `length` tracks from track `start` on.
#[derive(Clone, Copy)]
pub struct Gap {
    pub start: u64,
    pub length: u64,
}
