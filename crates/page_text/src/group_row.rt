//! Rows of storage groups.

use dsn_mask::Name;

/// A storage group: how many volumes it has, and the tracks of these together, all and the free ones.
#[derive(Clone, Copy)]
pub struct GroupRow {
    pub group: Name,
    pub volumes: u64,
    pub capacity: u64,
    pub free: u64,
}
