//! The status of a storage group or a volume.
use desk_common::Items;
use sms_construct::{Status, Target};

/// A storage group or a volume with its status.
#[derive(Clone, Copy)]
pub struct StatusRow {
    pub target: Target,
    pub status: Status,
}

/// The statuses of storage groups and volumes.
pub type Statuses = Items<StatusRow>;
