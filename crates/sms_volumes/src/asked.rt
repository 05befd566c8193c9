//! What is asked of volumes.
use dsn_mask::Name;
use sms_construct::{Eattr, Unit};

/// What is asked of the volumes for a data set: so many tracks, at least one and whole cylinders for CYL; on how
/// many volumes it may lie; whether it may lie on cylinder-managed space; and the listed storage groups where their
/// order counts, else none (docs/manual/rules.md, "The lists").
#[derive(Clone, Copy)]
pub struct Asked<'a> {
    pub unit: Unit,
    pub tracks: u32,
    pub volumes: u8,
    pub eattr: Eattr,
    pub tiers: &'a [Name],
}
