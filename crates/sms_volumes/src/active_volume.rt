//! A volume of the active configuration.
use sms_construct::{Status, VolumeDef};
use track_ledger::Ledger;

/// A volume of the active configuration with its present SMS status and its tracks. `group` is the place of its
/// storage group among those of the configuration.
#[derive(Drop)]
pub struct ActiveVolume {
    pub volume: VolumeDef,
    pub status: Status,
    pub group: usize,
    pub ledger: Ledger,
}
