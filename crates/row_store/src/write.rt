//! What is done to rows.
use crate::row::Row;
use desk_common::Items;

/// What is done to the rows.
#[derive(Drop)]
pub enum Write {
    /// The row takes the place of the one of its key, or is added.
    Put(Row),
    /// The same, unless the row of this key has a value above this one.
    PutUnless {
        row: Row,
        key: Items<u8>,
        above: Items<u8>,
    },
    /// The row of this key goes.
    Drop(Items<u8>),
    /// The rows go whose keys begin with this front.
    DropFront(Items<u8>),
    /// The rows go whose keys begin with this front, and of which what follows comes before this.
    DropBelow {
        front: Items<u8>,
        below: Items<u8>,
    },
}

/// What is done to the rows, one behind the other.
pub type Writes = Items<Write>;
