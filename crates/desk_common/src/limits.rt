//! The limits that code tests, and the measures that it counts with; for each, specs/Limits has the word of clauses.

/// The most bytes of a name or a qualifier.
pub const MAX_NAME: usize = 8;

/// The most bytes of a volume serial.
pub const MAX_VOLSER: usize = 6;

/// The most bytes of a data set name, and of another value that a routine sees.
pub const MAX_VALUE: usize = 44;

/// The most qualifiers of a data set name.
pub const MAX_QUALIFIERS: u64 = 22;

/// The most storage groups that one SET may name.
pub const MAX_GROUPS_SET: usize = 15;

/// The most volumes of a data set, and serials that a request names.
pub const MAX_VOLUMES: usize = 59;

/// The most texts of an accounting.
pub const MAX_FIELDS: usize = 8;

/// The most bytes of a word, of a variable with its ampersand, and of a mask.
pub const MAX_WORD: usize = 64;

/// The most bytes between the quotes of a literal, and of a line that WRITE writes.
pub const MAX_LITERAL: usize = 110;

/// The most lines that are kept of one kind of routine.
pub const MAX_LINES: usize = 64;

/// The most entries of an INCLUDE or an EXCLUDE.
pub const MAX_ENTRIES: usize = 255;

/// The greatest code of an EXIT.
pub const MAX_EXIT_CODE: u64 = 65_535;

/// The greatest quantity of a space, in tracks or cylinders.
pub const MAX_QUANTITY: u32 = 16_777_215;

/// The most extents of a data set on one volume.
pub const MAX_EXTENTS: u32 = 16;

/// The most pieces of one grant.
pub const MAX_PIECES: usize = 5;

/// The tracks of a cylinder.
pub const TRACKS_IN_CYLINDER: u32 = 15;

/// The first track of the cylinder-managed part of a volume (docs/manual/rules.md, "The tracks of a volume").
pub const BORDER: u32 = 982_800;

/// The cylinders of a volume before its border.
pub const MAX_TRACK_MANAGED: u32 = 65_520;

/// The most bytes of a line of a script, and of an HTTP body that is no deck.
pub const MAX_LINE: usize = 4_096;

/// The most bytes of a program's input, where it is no routine.
pub const MAX_INPUT: usize = 16_777_216;

/// The most commands of a script.
pub const MAX_COMMANDS: u32 = 100_000;

/// The most workers of a run or a desk.
pub const MAX_WORKERS: u32 = 16;

/// The most items of a generated script.
pub const MAX_ITEMS: u32 = 40_000;

/// The most bytes of a deck.
pub const MAX_DECK: usize = 262_144;

/// The most bytes of a path in a deck.
pub const MAX_PATH: usize = 80;

/// The most days of a retention period.
pub const MAX_DAYS: u32 = 9_999;

/// The last day that may be named.
pub const LAST_DAY: u32 = 9_999_999;
