//! Calls over a store in memory.
use sms_base::{MemSink, MemSource};
use sms_keeper::Stored;
use std::alloc::Global;
use std::test::Fail;
use store_calls::{StoreStatus, store_check, store_due, store_list, store_manage, store_run};
use store_report::{Format, Listing, Query, Selection};

const ROOM: usize = 4_000;

fn source(alloc: Global, script: &str) -> Result<MemSource, Fail> {
    let bytes = script.as_bytes().to_vec(alloc)?;
    Ok(MemSource::new(bytes, 16, Vec::new(alloc)))
}

// A sink whose write with this number fails, where there is one.
fn sink(alloc: Global, failing: Option<u64>) -> Result<MemSink, Fail> {
    let buffer = vec![in alloc; 0; ROOM]?;
    let mut faults = Vec::new(alloc);
    if let Some(write) = failing {
        faults.push(write)?;
    }
    Ok(MemSink::new(buffer, 7, faults))
}

/// How the script is answered on the store, what is written, and the store behind it.
pub fn run<P: Stored>(
    alloc: Global,
    script: &str,
    volumes: bool,
    failing: Option<u64>,
    keeper: P,
) -> Result<(StoreStatus, MemSink, P), Fail> {
    let (mut src, mut out) = (source(alloc, script)?, sink(alloc, failing)?);
    let (status, keeper) = store_run(alloc, volumes, &mut src, &mut out, keeper);
    Ok((status, out, keeper))
}

/// A query of all rows.
pub fn all(listing: Listing, format: Format) -> Query {
    Query {
        listing,
        selection: Selection {
            mask: None,
            group: None,
            volume: None,
        },
        format,
    }
}

/// How the store is listed, what is written, and the store behind it.
pub fn list<P: Stored>(
    alloc: Global,
    query: &Query,
    failing: Option<u64>,
    keeper: P,
) -> Result<(StoreStatus, MemSink, P), Fail> {
    let mut out = sink(alloc, failing)?;
    let (status, keeper) = store_list(alloc, query, &mut out, keeper);
    Ok((status, out, keeper))
}

/// How the deck is checked on the store, whether it would be active, what is written, and the store behind it.
pub fn check<P: Stored>(
    alloc: Global,
    deck: &str,
    keeper: P,
) -> Result<(StoreStatus, bool, MemSink, P), Fail> {
    let (mut src, mut out) = (source(alloc, deck)?, sink(alloc, None)?);
    let (status, good, keeper) = store_check(alloc, &mut src, &mut out, keeper);
    Ok((status, good, out, keeper))
}

/// How what is due on the store on the day is told, what is written, and the store behind it.
pub fn due<P: Stored>(
    alloc: Global,
    day: u32,
    keeper: P,
) -> Result<(StoreStatus, MemSink, P), Fail> {
    let mut out = sink(alloc, None)?;
    let (status, keeper) = store_due(alloc, day, &mut out, keeper);
    Ok((status, out, keeper))
}

/// How the day is done on the store, what is written, and the store behind it.
pub fn manage<P: Stored>(
    alloc: Global,
    day: u32,
    failing: Option<u64>,
    keeper: P,
) -> Result<(StoreStatus, MemSink, P), Fail> {
    let mut out = sink(alloc, failing)?;
    let (status, keeper) = store_manage(alloc, day, &mut out, keeper);
    Ok((status, out, keeper))
}
