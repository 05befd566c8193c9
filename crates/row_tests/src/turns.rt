//! What comes to the calls of a store.
use desk_common::Items;
use row_store::{Contents, Ending, Guard, Happening, MemStore, Row, Turn};
use std::alloc::{AllocError, Global};

/// So many calls of a store have a turn; those behind them are answered.
pub const CALLS: u8 = 40;

/// The desk that takes the prefix at one of the turns.
pub const OTHER: u8 = 2;

/// A number below `most` that looks drawn, the same for the same seed and place.
pub fn drawn(seed: u64, place: u8, most: u64) -> u64 {
    let mixed = seed
        .wrapping_mul(1_000)
        .wrapping_add(u64::from(place))
        .wrapping_mul(0x9E37_79B9_7F4A_7C15);
    let mixed = (mixed ^ (mixed >> 29)).wrapping_mul(0xBF58_476D_1CE4_E5B9);
    (mixed >> 33) % most.max(1)
}

/// A row of these texts.
pub fn row(alloc: Global, key: &[u8], value: &[u8]) -> Result<Row, AllocError> {
    Ok(Row {
        key: Items::from_slice(alloc, key)?,
        value: Items::from_slice(alloc, value)?,
    })
}

/// A store of these rows, whose calls come to this.
pub fn store(alloc: Global, rows: Vec<Row>, turns: Vec<Turn>) -> Result<MemStore, AllocError> {
    let guard = Guard {
        epoch: 0,
        number: 0,
    };
    let rows = Items::from_vec(rows);
    MemStore::new(alloc, Contents { guard, rows }, turns)
}

// What happens before a call where nobody takes the prefix.
fn happening(alloc: Global, seed: u64, call: u8) -> Result<Happening, AllocError> {
    match drawn(seed, call, 8) {
        0 | 1 => Ok(Happening::Late(0)),
        2 => Ok(Happening::Late(1)),
        3 | 4 => Ok(Happening::Put(row(alloc, &[OTHER, call], &[call])?)),
        _ => Ok(Happening::Nothing),
    }
}

// What a call comes to.
fn ending(seed: u64, call: u8) -> Ending {
    match drawn(seed, call.wrapping_add(CALLS), 8) {
        0 => Ending::Fails,
        1 => Ending::Made,
        2 => Ending::Waits,
        3 => Ending::Dropped,
        _ => Ending::Answered,
    }
}

/// The turns of a seed; another desk takes the prefix before the call with this number, where there is one.
pub fn turns(alloc: Global, seed: u64, taken: u64) -> Result<Vec<Turn>, AllocError> {
    let mut turns = Vec::new(alloc);
    for call in 0..CALLS {
        let before = if u64::from(call) == taken {
            Happening::Taken
        } else {
            happening(alloc, seed, call)?
        };
        let ending = ending(seed, call);
        turns.push(Turn { before, ending })?;
    }
    Ok(turns)
}
