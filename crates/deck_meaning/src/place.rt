//! A volume among all volumes of a deck.
use sms_construct::VolumeDef;

/// A volume, and whether its serial stands in more than one storage group.
#[derive(Clone, Copy)]
pub struct Place {
    pub volume: VolumeDef,
    pub is_twice: bool,
}
