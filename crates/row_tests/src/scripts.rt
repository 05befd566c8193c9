//! Scripts: a desk has the prefix until another takes it, and then a third takes it, over a store whose calls come to
//! what is drawn.
use crate::desks::{acknowledged, taken};
use crate::told::{are_there, are_together, numbers_of};
use crate::turns::{CALLS, OTHER, store, turns};
use row_store::{MemStore, Rows, Standing};
use std::alloc::{AllocError, Global};
use std::test::Fail;

const FIRST: u8 = 1;

const THIRD: u8 = 3;

// How the first desk's hold stands in the end, the store that it leaves, and what was acknowledged.
fn first_part(alloc: Global, seed: u64) -> Result<(Standing, MemStore, Vec<u8>), AllocError> {
    let turns = turns(alloc, seed, seed % u64::from(CALLS))?;
    let store = store(alloc, Vec::new(alloc), turns)?;
    let Ok((mut hold, _)) = taken(alloc, store) else {
        return Err(AllocError);
    };
    let told = acknowledged(alloc, &mut hold, FIRST, seed)?;
    Ok((hold.standing(), hold.into_store(), told))
}

// What the third desk finds, the store that it leaves, and what was acknowledged.
fn third_part(
    alloc: Global,
    seed: u64,
    store: MemStore,
) -> Result<(Rows, MemStore, Vec<u8>), AllocError> {
    let turns = turns(alloc, !seed, u64::MAX)?;
    let Ok((mut hold, found)) = taken(alloc, store.with_turns(turns)) else {
        return Err(AllocError);
    };
    let told = acknowledged(alloc, &mut hold, THIRD, seed)?;
    Ok((found, hold.into_store(), told))
}

// Whether all that was acknowledged is there, once, and nothing of two desks is mixed.
fn is_kept(alloc: Global, seed: u64) -> Result<bool, AllocError> {
    let (_, store, first) = first_part(alloc, seed)?;
    let (found, store, third) = third_part(alloc, seed, store)?;
    let rows = store.holds().rows.as_slice();
    let early = numbers_of(alloc, found.as_slice(), FIRST)?;
    let late = numbers_of(alloc, rows, FIRST)?;
    let last = numbers_of(alloc, rows, THIRD)?;
    let are_kept = are_there(&late, &first) && are_there(&last, &third) && early == late;
    Ok(are_kept && (FIRST..=THIRD).all(|desk| are_together(rows, desk)))
}

#[test]
fn acknowledged_changes_are_there_once(rt: HostRuntime) -> Result<(), Fail> {
    let alloc = rt.alloc();
    for seed in 0..1_000 {
        assert!(rt; is_kept(alloc, seed)?, "at {seed}");
    }
    Ok(())
}

// Whether a hold of the first desk ends so, and whether rows of the other desk stand behind its rows then.
fn is_met(alloc: Global, standing: Standing) -> Result<bool, AllocError> {
    for seed in 0..200 {
        let (found, store, told) = first_part(alloc, seed)?;
        let others = numbers_of(alloc, store.holds().rows.as_slice(), OTHER)?;
        if found == standing
            && !told.is_empty()
            && others.is_empty() != (found == Standing::Taken)
        {
            return Ok(true);
        }
    }
    Ok(false)
}

#[test]
fn holds_end_in_each_standing(rt: HostRuntime) -> Result<(), Fail> {
    let alloc = rt.alloc();
    for standing in [
        Standing::Free,
        Standing::Waiting,
        Standing::Behind,
        Standing::Taken,
    ] {
        assert!(rt; is_met(alloc, standing)?);
    }
    Ok(())
}
