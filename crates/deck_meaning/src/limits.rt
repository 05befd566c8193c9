//! The limits of a deck (docs/manual/deck.md, "Limits").

/// The most bytes of a routine's text.
pub const MAX_ROUTINE: usize = 65_536;

/// The most classes of one kind.
pub const MAX_CLASSES: usize = 256;

/// The most storage groups.
pub const MAX_GROUPS: usize = 64;

/// The most volumes of a storage group.
pub const MAX_GROUP_VOLUMES: usize = 256;

/// The most volumes of a deck.
pub const MAX_DECK_VOLUMES: usize = 1_024;

/// The most cylinders of a volume.
pub const MAX_CYLINDERS: u32 = 1_182_006;

/// The cylinders of a unit of cylinder-managed space.
pub const MANAGED_CYLINDERS: u32 = 21;

/// The most tracks of a volume whose size a deck gives in tracks.
pub const MAX_TRACKS: u32 = 982_800;

/// The highest breakpoint, in cylinders.
pub const MAX_BREAKPOINT: u32 = 65_520;
