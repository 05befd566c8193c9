//! The tables of a deck and the keys that stand in them.

/// A table of a deck, by what its keys are.
#[derive(Clone, Copy, PartialEq, Eq)]
pub enum DeckTable {
    Top,
    Routines,
    DataClass,
    StorageClass,
    ManagementClass,
    StorageGroup,
    Volume,
    /// Its keys are names of classes or of storage groups.
    Names,
    /// Its keys are volume serials.
    Serials,
    /// None that a deck has.
    Other,
}

impl DeckTable {
    /// The table in which the last key of this path stands.
    pub fn of(path: &[u8]) -> Self {
        let mut keys = path.split(|byte| *byte == b'.');
        let first = keys.next().unwrap_or(&[]);
        match (first, keys.count()) {
            (_, 0) => DeckTable::Top,
            (b"routine", 1) => DeckTable::Routines,
            (_, 1) => DeckTable::Names,
            (b"dataclass", 2) => DeckTable::DataClass,
            (b"storclass", 2) => DeckTable::StorageClass,
            (b"mgmtclass", 2) => DeckTable::ManagementClass,
            (b"storgroup", 2) => DeckTable::StorageGroup,
            (b"storgroup", 3) => DeckTable::Serials,
            (b"storgroup", 4) => DeckTable::Volume,
            _ => DeckTable::Other,
        }
    }

    /// The keys that may stand in it, where a deck doesn't name them itself (docs/manual/deck.md, "Keys").
    pub fn keys(self) -> &'static [&'static str] {
        match self {
            DeckTable::Top => &[
                "version",
                "system",
                "sysplex",
                "dataclass",
                "storclass",
                "mgmtclass",
                "storgroup",
                "routine",
            ],
            DeckTable::Routines => &["dataclass", "storclass", "mgmtclass", "storgroup"],
            DeckTable::DataClass => &["space", "volcount", "eattr"],
            DeckTable::StorageClass => &["multi_tier"],
            DeckTable::ManagementClass => &["expire_after", "release"],
            DeckTable::StorageGroup => &[
                "type",
                "status",
                "high",
                "low",
                "overflow",
                "breakpoint",
                "volume",
            ],
            DeckTable::Volume => &["device", "cylinders", "tracks", "status"],
            DeckTable::Names | DeckTable::Serials | DeckTable::Other => &[],
        }
    }
}

/// The last key of a path.
pub fn last_key(path: &[u8]) -> &[u8] {
    match path.iter().rposition(|byte| *byte == b'.') {
        Some(at) => &path[at + 1..],
        None => path,
    }
}
