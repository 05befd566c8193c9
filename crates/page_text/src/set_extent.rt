//! Extents on one volume.

use dsn_mask::Dsn;

/// An extent on one volume with the name of its data set: `length` tracks from track `start` on.
#[derive(Clone, Copy)]
pub struct SetExtent {
    pub dsn: Dsn,
    pub start: u32,
    pub length: u32,
}
