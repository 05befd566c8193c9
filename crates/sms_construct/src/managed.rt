//! The cylinder-managed part of a volume.

/// The tracks of a unit of that part (docs/manual/rules.md, "The tracks of a volume"): 21 cylinders.
pub const TRACKS_IN_MANAGED: u32 = 315;
