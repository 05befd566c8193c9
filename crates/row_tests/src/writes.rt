//! What each kind of write makes of rows.
use crate::desks::taken;
use crate::turns::{row, store};
use desk_common::Items;
use row_store::{Row, Write, Writes};
use std::alloc::{AllocError, Global};
use std::test::Fail;

// Keys, each with its value.
static BEFORE: [(&str, &str); 7] = [
    ("a", "1"),
    ("ab", "1"),
    ("b1", "1"),
    ("b2", "1"),
    ("c", "5"),
    ("dx", "1"),
    ("dy", "1"),
];

const BEHIND: &str = "a=2 b2=1 c=5 e=1 ";

fn rows(alloc: Global) -> Result<Vec<Row>, AllocError> {
    let mut rows = Vec::new(alloc);
    for (key, value) in &BEFORE {
        rows.push(row(alloc, key.as_bytes(), value.as_bytes())?)?;
    }
    Ok(rows)
}

// Puts the row unless c has a value above this one.
fn put_unless(alloc: Global, key: &[u8], above: &[u8]) -> Result<Write, AllocError> {
    Ok(Write::PutUnless {
        row: row(alloc, key, b"1")?,
        key: Items::from_slice(alloc, b"c")?,
        above: Items::from_slice(alloc, above)?,
    })
}

fn writes(alloc: Global) -> Result<Writes, AllocError> {
    let mut writes = Items::new(alloc);
    writes.push(Write::Put(row(alloc, b"a", b"2")?))?;
    writes.push(put_unless(alloc, b"e", b"5")?)?;
    writes.push(put_unless(alloc, b"f", b"4")?)?;
    writes.push(Write::Drop(Items::from_slice(alloc, b"ab")?))?;
    writes.push(Write::DropFront(Items::from_slice(alloc, b"d")?))?;
    writes.push(Write::DropBelow {
        front: Items::from_slice(alloc, b"b")?,
        below: Items::from_slice(alloc, b"2")?,
    })?;
    Ok(writes)
}

fn text_of(alloc: Global, rows: &[Row]) -> Result<Vec<u8>, AllocError> {
    let mut text = Vec::new(alloc);
    for row in rows {
        text.extend_from_slice(row.key.as_slice())?;
        text.extend_from_slice(b"=")?;
        text.extend_from_slice(row.value.as_slice())?;
        text.extend_from_slice(b" ")?;
    }
    Ok(text)
}

// Whether all kinds of writes, made in one transaction, leave these rows.
fn are_made(alloc: Global) -> Result<bool, AllocError> {
    let store = store(alloc, rows(alloc)?, Vec::new(alloc))?;
    let Ok((mut hold, _)) = taken(alloc, store) else {
        return Ok(false);
    };
    let is_made = hold.commit(Items::new(alloc), writes(alloc)?).is_ok();
    let store = hold.into_store();
    let text = text_of(alloc, store.holds().rows.as_slice())?;
    Ok(is_made && text.as_slice() == BEHIND.as_bytes())
}

#[test]
fn each_write_is_made(rt: HostRuntime) -> Result<(), Fail> {
    let alloc = rt.alloc();
    assert!(rt; are_made(alloc)?);
    Ok(())
}
