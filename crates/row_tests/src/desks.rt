//! Desks that hold a prefix.
use crate::turns::{CALLS, drawn, row};
use desk_common::Items;
use row_store::{Hold, MemStore, Rows, Write};
use std::alloc::{AllocError, Global};

// So many changes a desk asks for.
const CHANGES: u8 = 12;

/// Takes the prefix, and shows its rows; the store where it can't, though all turns are over.
pub fn taken(alloc: Global, store: MemStore) -> Result<(Hold<MemStore>, Rows), MemStore> {
    let mut left = store;
    for _ in 0..=CALLS {
        match Hold::take(alloc, left) {
            Ok(taken) => return Ok(taken),
            Err((store, _)) => left = store,
        }
    }
    Err(left)
}

// Puts the desk's row of this number, where none is there; whether that is acknowledged.
fn is_put(
    alloc: Global,
    hold: &mut Hold<MemStore>,
    desk: u8,
    number: u8,
) -> Result<bool, AllocError> {
    let mut absent = Items::new(alloc);
    absent.push(Items::from_slice(alloc, &[desk, number])?)?;
    let mut writes = Items::new(alloc);
    writes.push(Write::Put(row(alloc, &[desk, number], &[number])?))?;
    Ok(hold.commit(absent, writes).is_ok())
}

/// The numbers of the rows that are acknowledged to the desk. One that isn't is asked for again, or given up for the
/// next.
pub fn acknowledged(
    alloc: Global,
    hold: &mut Hold<MemStore>,
    desk: u8,
    seed: u64,
) -> Result<Vec<u8>, AllocError> {
    let mut told = Vec::new(alloc);
    let mut number: u8 = 0;
    for place in 0..CHANGES {
        let is_told = is_put(alloc, hold, desk, number)?;
        if is_told {
            told.push(number)?;
        }
        if is_told || drawn(seed, place, 2) == 0 {
            number = number.saturating_add(1);
        }
    }
    Ok(told)
}
