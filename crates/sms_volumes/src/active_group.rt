//! A storage group of the active configuration.
use sms_construct::{Status, StorGroup};

/// A storage group of the active configuration with its present SMS status, and how many volumes it has
/// (docs/manual/rules.md, "Statuses").
#[derive(Clone, Copy)]
pub struct ActiveGroup {
    pub group: StorGroup,
    pub status: Status,
    pub volumes: u32,
}
