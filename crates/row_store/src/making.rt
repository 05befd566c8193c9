// Transactions that are made in memory.
ghost use Rattle.std.specs.Prelude.{◌≡◌, IfOk, OnOk, filter, if◌then◌else◌};
ghost use Rattle.std.specs.List.{list_any};
ghost use Rattle.row_store.specs.Contents.{are_absent, comes_before, comes_behind, contents_after, has_front, is_above};
ghost use Rattle.row_store.specs.Contents.{is_at, is_below, put_row, rows_after, rows_with, rows_without};

use crate::contents::Contents;
use crate::row::{Row, copied_rows};
use crate::transaction::Transaction;
use crate::write::Write;
use desk_common::{Items, are_same};
use std::alloc::{AllocError, Global};

fn is_at(key: &[u8], row: &Row) -> bool
    ensures { result ≡ is_at key.now row.now }
{
    are_same(row.key.as_slice(), key)
}

fn is_above(key: &[u8], value: &[u8], row: &Row) -> bool
    ensures { result ≡ is_above key.now value.now row.now }
{
    is_at(key, row) && value.cmp(row.value.as_slice()).is_lt()
}

fn has_front(front: &[u8], row: &Row) -> bool
    ensures { result ≡ has_front front.now row.now }
{
    row.key.as_slice().starts_with(front)
}

fn is_below(front: &[u8], below: &[u8], row: &Row) -> bool
    ensures { result ≡ is_below front.now below.now row.now }
{
    let key = row.key.as_slice();
    key.starts_with(front) && key[front.len()..].cmp(below).is_lt()
}

// Whether a row has this key.
fn is_there(key: &[u8], rows: &[Row]) -> bool
    ensures { result ≡ list_any (is_at key.now) rows.now }
{
    rows.iter().any(|row| is_at(key, row))
}

// Whether the row of this key has a value above this one.
fn has_above(key: &[u8], value: &[u8], rows: &[Row]) -> bool
    ensures { result ≡ list_any (is_above key.now value.now) rows.now }
{
    rows.iter().any(|row| is_above(key, value, row))
}

// Whether no row has one of these keys.
pub fn are_absent(keys: &[Items<u8>], rows: &[Row]) -> bool
    ensures { result ≡ are_absent keys.now rows.now }
{
    keys.iter().all(|key| !is_there(key.as_slice(), rows))
}

fn drop_key(key: &[u8], rows: &mut Vec<Row>)
    ensures { rows.new.items ≡ rows_without (is_at key.now) rows.old.items }
{
    rows.retain(|row| !is_at(key, row));
}

fn drop_front(front: &[u8], rows: &mut Vec<Row>)
    ensures { rows.new.items ≡ rows_without (has_front front.now) rows.old.items }
{
    rows.retain(|row| !has_front(front, row));
}

fn drop_below(front: &[u8], below: &[u8], rows: &mut Vec<Row>)
    ensures { rows.new.items ≡ rows_without (is_below front.now below.now) rows.old.items }
{
    rows.retain(|row| !is_below(front, below, row));
}

fn comes_before(key: &[u8], row: &Row) -> bool
    ensures { result ≡ comes_before key.now row.now }
{
    row.key.as_slice().cmp(key).is_lt()
}

fn comes_behind(key: &[u8], row: &Row) -> bool
    ensures { result ≡ comes_behind key.now row.now }
{
    key.cmp(row.key.as_slice()).is_lt()
}

fn keep_before(key: &[u8], rows: &mut Vec<Row>)
    ensures { rows.new.items ≡ filter (comes_before key.now) rows.old.items }
{
    rows.retain(|row| comes_before(key, row));
}

fn keep_behind(key: &[u8], rows: &mut Vec<Row>)
    ensures { rows.new.items ≡ filter (comes_behind key.now) rows.old.items }
{
    rows.retain(|row| comes_behind(key, row));
}

// Puts the row in the place of the one of its key, or adds it at the place of its key.
pub fn put_row(alloc: Global, row: &Row, rows: &mut Vec<Row>) -> Result<(), AllocError>
    ensures { OnOk result (rows.new.items ≡ put_row row.now rows.old.items) }
{
    let key = row.key.as_slice();
    let copy = row.copy(alloc)?;
    let mut behind = copied_rows(alloc, rows.as_slice())?;
    keep_behind(key, &mut behind);
    keep_before(key, rows);
    rows.push(copy)?;
    rows.append(&mut behind)?;
    Ok(())
}

// The same, unless the row of this key has a value above this one.
fn put_unless(
    alloc: Global,
    row: &Row,
    key: &[u8],
    above: &[u8],
    rows: &mut Vec<Row>,
) -> Result<(), AllocError>
    ensures { OnOk result
        (rows.new.items ≡ (if list_any (is_above key.now above.now) rows.old.items then rows.old.items
        else put_row row.now rows.old.items)) }
{
    if has_above(key, above, rows) {
        return Ok(());
    }
    put_row(alloc, row, rows)
}

// Makes a write.
fn make_write(alloc: Global, write: &Write, rows: &mut Vec<Row>) -> Result<(), AllocError>
    ensures { OnOk result (rows.new.items ≡ rows_with rows.old.items write.now) }
{
    match write {
        Write::Put(row) => put_row(alloc, row, rows),
        Write::PutUnless { row, key, above } => {
            put_unless(alloc, row, key.as_slice(), above.as_slice(), rows)
        }
        Write::Drop(key) => {
            drop_key(key.as_slice(), rows);
            Ok(())
        }
        Write::DropFront(front) => {
            drop_front(front.as_slice(), rows);
            Ok(())
        }
        Write::DropBelow { front, below } => {
            drop_below(front.as_slice(), below.as_slice(), rows);
            Ok(())
        }
    }
}

// Makes the writes, one behind the other.
fn make_writes(alloc: Global, writes: &[Write], rows: &mut Vec<Row>) -> Result<(), AllocError>
    ensures { OnOk result (rows.new.items ≡ rows_after writes.now rows.old.items) }
{
    for write in writes {
        make_write(alloc, write, rows)?;
    }
    Ok(())
}

// The contents after a transaction.
pub fn contents_after(
    alloc: Global,
    transaction: &Transaction,
    contents: &Contents,
) -> Result<Contents, AllocError>
    ensures { IfOk result (λ after. after ≡ contents_after transaction.now contents.now) }
{
    let mut rows = copied_rows(alloc, contents.rows.as_slice())?;
    make_writes(alloc, transaction.writes.as_slice(), &mut rows)?;
    Ok(Contents {
        guard: transaction.next,
        rows: Items::from_vec(rows),
    })
}
