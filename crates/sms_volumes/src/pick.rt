//! A volume that was chosen.
use track_ledger::Grant;

/// The place of the volume that is chosen, and what the gap rule grants there.
#[derive(Drop)]
pub struct Pick {
    pub place: usize,
    pub grant: Grant,
}
