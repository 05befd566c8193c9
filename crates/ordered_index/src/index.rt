//! A map in the order of its keys.
ghost use Rattle.std.specs.Prelude.{◌≡◌, ◌<◌, ◌≤◌, ◌+◌, ◌&&◌, [], OnOk, Some, None, length, vec_capacity};
ghost use Rattle.std.specs.Prelude.{if◌then◌else◌};
ghost use Rattle.std.specs.Ordering.{is_eq};
ghost use Rattle.std.specs.BTreeMap.{insert_entry, is_at};
ghost use Rattle.std.specs.Map.{lookup, remove_entry};
ghost use Rattle.std.specs.Option.{option_copied};
ghost use Rattle.ordered_index.specs.Chunks.{AreFilled, IsChunkOf, rows_of};
ghost use Rattle.ordered_index.specs.Room.{AreRoomy, IsIndex};
ghost use Rattle.ordered_index.specs.Rows.{AreRows, add_entry, is_free, row_after};
ghost use Rattle.ordered_index.specs.Index.{next_row};

use crate::chunks::{add_among, chunk_of, first_from, put_among, take_among, value_among};
use crate::moving::{ROOM, add_in_full, insert_chunk, join_around, put_in_full};
use crate::rows::{first_after, place_of, take_from};
use crate::spot::{Spot, spot_near};
use std::alloc::{AllocError, Global};
use std::cell::Cell;
use std::marker::Model;

/// Rows of keys and values in the order of the keys, in chunks of at most 64 rows that are searched by halving.
/// Room is taken ahead, and then a row is put without memory. A removal takes none either, and joins the chunk with
/// its neighbours where they have few rows together, so that memory falls with the rows. A row that is put or
/// taken straight behind a `get` of its key is found without another search, unless it is the first of a chunk.
#[derive(Drop)]
pub struct OrderedIndex<K: Ord, V> {
    alloc: Global,
    chunks: Vec<Vec<(K, V)>>,
    // empty chunks, each for the row that finds its chunk full
    spares: Vec<Vec<(K, V)>>,
    // where the last look for a key ended; a wrong spot costs a search
    last: Cell<Spot>,
}

impl<K: Ord, V> Model for OrderedIndex<K, V> {
    ghost use Rattle.ordered_index.specs.Index.{IndexView};
    ghost use Rattle.ordered_index.specs.Room.{IsIndex, index_view};

    ghost Value = { IndexView K V };

    ghost view = { λ m. index_view m.chunks m.spares };

    ghost invariant = { λ m. IsIndex K.cmp m.chunks m.spares };
}

impl<K: Ord + Drop, V: Drop> OrderedIndex<K, V> {
    /// An empty index. It takes no memory.
    pub fn new(alloc: Global) -> Self
        ensures { result.rows ≡ [] }
    {
        OrderedIndex {
            alloc,
            chunks: Vec::new(alloc),
            spares: Vec::new(alloc),
            last: Cell::new(Spot { chunk: 0, row: 0 }),
        }
    }

    /// The value of the key.
    pub fn get(&self, key: &K) -> Option<&V>
        ensures { option_copied result ≡ lookup (is_at (K.cmp key.now)) self.now.rows }
    {
        value_among(&self.chunks, key, &self.last)
    }

    /// The first row of all.
    pub fn first(&self) -> Option<&(K, V)>
        ensures { option_copied result ≡ next_row K.cmp None self.now.rows }
    {
        first_from(&self.chunks, 0)
    }

    /// The first row behind the key.
    pub fn after(&self, key: &K) -> Option<&(K, V)>
        ensures { option_copied result ≡ next_row K.cmp (Some key.now) self.now.rows }
    {
        row_behind(&self.chunks, key)
    }

    /// Takes room for one more row.
    pub fn reserve(&mut self) -> Result<(), AllocError>
        ensures ok { OnOk result (0 < self.new.room) }
        ensures rows { self.new.rows ≡ self.old.rows }
        ensures room { self.old.room ≤ self.new.room }
    {
        if !self.spares.is_empty() {
            return Ok(());
        }
        self.chunks.reserve(1)?;
        self.spares.reserve(1)?;
        let spare = Vec::with_capacity(self.alloc, ROOM)?;
        self.spares.push_reserved(spare);
        Ok(())
    }

    /// Puts a value in place of the one of its key, or adds it, and gives the old one. It takes no memory.
    pub fn put(&mut self, key: K, value: V) -> Option<V>
        requires { 0 < self.old.room }
        ensures rows { self.new.rows ≡ insert_entry K.cmp self.old.rows key value }
        ensures found { (other : K) → lookup (is_at (K.cmp other)) self.new.rows
            ≡ (if is_eq (K.cmp key other) then Some value else lookup (is_at (K.cmp other)) self.old.rows) }
        ensures value { result ≡ lookup (is_at (K.cmp key)) self.old.rows }
        ensures room { self.old.room ≤ self.new.room + 1 }
    {
        put_row(
            &mut self.chunks,
            &mut self.spares,
            self.last.get(),
            key,
            value,
        )
    }

    /// Adds the row where none has its key, and tells whether it did: by one search at most, and by a second one where
    /// the chunk of a key that none has is full. It takes no memory.
    pub fn put_new(&mut self, key: K, value: V) -> bool
        requires { 0 < self.old.room }
        ensures rows { self.new.rows ≡ add_entry K.cmp self.old.rows key value }
        ensures found { (other : K) → lookup (is_at (K.cmp other)) self.new.rows
            ≡ (if is_free K.cmp key self.old.rows && is_eq (K.cmp key other) then Some value
            else lookup (is_at (K.cmp other)) self.old.rows) }
        ensures added { result ≡ is_free K.cmp key self.old.rows }
        ensures room { self.old.room ≤ self.new.room + (if result then 1 else 0) }
    {
        add_row(
            &mut self.chunks,
            &mut self.spares,
            self.last.get(),
            key,
            value,
        )
    }

    /// Takes the row of the key, and gives its value. It takes no memory.
    pub fn remove(&mut self, key: &K) -> Option<V>
        ensures rows { self.new.rows ≡ remove_entry (is_at (K.cmp key.now)) self.old.rows }
        ensures found { (other : K) → lookup (is_at (K.cmp other)) self.new.rows
            ≡ (if is_eq (K.cmp key.now other) then None else lookup (is_at (K.cmp other)) self.old.rows) }
        ensures value { result ≡ lookup (is_at (K.cmp key.now)) self.old.rows }
        ensures room { self.new.room ≡ self.old.room }
    {
        take_row(&mut self.chunks, &self.spares, self.last.get(), key)
    }
}

// Puts a value in place of the one of its key, or adds it, and gives the old one.
fn put_row<K: Ord + Drop, V: Drop>(
    chunks: &mut Vec<Vec<(K, V)>>,
    spares: &mut Vec<Vec<(K, V)>>,
    near: Spot,
    key: K,
    value: V,
) -> Option<V>
    requires index { IsIndex K.cmp chunks.old spares.old }
    requires some { 0 < length spares.old.items }
    ensures index { IsIndex K.cmp chunks.new spares.new }
    ensures spares { length spares.old.items ≤ length spares.new.items + 1 }
    ensures rows { rows_of chunks.new.items ≡ insert_entry K.cmp (rows_of chunks.old.items) key value }
    ensures value { result ≡ lookup (is_at (K.cmp key)) (rows_of chunks.old.items) }
{
    if chunks.is_empty() {
        put_first(chunks, spares, key, value);
        return None;
    }
    let spot = spot_near(chunks, near, &key);
    if chunks[spot.chunk].len() < ROOM {
        put_among(chunks, spot, key, value)
    } else {
        put_in_full(chunks, spares, spot.chunk, key, value)
    }
}

// Adds the row where none has its key, and tells whether it did.
fn add_row<K: Ord + Drop, V: Drop>(
    chunks: &mut Vec<Vec<(K, V)>>,
    spares: &mut Vec<Vec<(K, V)>>,
    near: Spot,
    key: K,
    value: V,
) -> bool
    requires index { IsIndex K.cmp chunks.old spares.old }
    requires some { 0 < length spares.old.items }
    ensures index { IsIndex K.cmp chunks.new spares.new }
    ensures spares { length spares.old.items ≤ length spares.new.items + (if result then 1 else 0) }
    ensures rows { rows_of chunks.new.items ≡ add_entry K.cmp (rows_of chunks.old.items) key value }
    ensures added { result ≡ is_free K.cmp key (rows_of chunks.old.items) }
{
    if chunks.is_empty() {
        put_first(chunks, spares, key, value);
        return true;
    }
    let spot = spot_near(chunks, near, &key);
    if chunks[spot.chunk].len() < ROOM {
        add_among(chunks, spot, key, value)
    } else {
        add_in_full(chunks, spares, spot, key, value)
    }
}

// Puts the first row of all.
fn put_first<K: Ord + Drop, V: Drop>(
    chunks: &mut Vec<Vec<(K, V)>>,
    spares: &mut Vec<Vec<(K, V)>>,
    key: K,
    value: V,
)
    requires index { IsIndex K.cmp chunks.old spares.old }
    requires none { length chunks.old.items ≡ 0 }
    requires some { 0 < length spares.old.items }
    ensures index { IsIndex K.cmp chunks.new spares.new }
    ensures spares { length spares.old.items ≤ length spares.new.items + 1 }
    ensures rows { rows_of chunks.new.items ≡ insert_entry K.cmp [] key value }
{
    let mut chunk = spares.take_last();
    chunk.push_reserved((key, value));
    chunks.push_reserved(chunk);
}

// Takes the row of the key, and gives its value.
fn take_row<K: Ord + Drop, V: Drop>(
    chunks: &mut Vec<Vec<(K, V)>>,
    spares: &Vec<Vec<(K, V)>>,
    near: Spot,
    key: &K,
) -> Option<V>
    requires index { IsIndex K.cmp chunks.old spares.now }
    ensures index { IsIndex K.cmp chunks.new spares.now }
    ensures rows { rows_of chunks.new.items ≡ remove_entry (is_at (K.cmp key.now)) (rows_of chunks.old.items) }
    ensures value { result ≡ lookup (is_at (K.cmp key.now)) (rows_of chunks.old.items) }
{
    if chunks.is_empty() {
        return None;
    }
    let spot = spot_near(chunks, near, key);
    if chunks[spot.chunk].len() < 2 {
        let value = take_only(chunks, spot.chunk, key);
        join_around(chunks, spot.chunk);
        return value;
    }
    let value = take_among(chunks, spot, key);
    join_around(chunks, spot.chunk);
    value
}

// Takes the row of the key from its chunk, which has no other and goes with it, and gives its value.
fn take_only<K: Ord + Drop, V: Drop>(
    chunks: &mut Vec<Vec<(K, V)>>,
    place: usize,
    key: &K,
) -> Option<V>
    requires is { IsChunkOf K.cmp key.now chunks.old.items place }
    requires filled { AreFilled chunks.old.items }
    requires sorted { AreRows K.cmp (rows_of chunks.old.items) }
    requires roomy { AreRoomy chunks.old.items }
    ensures rows { rows_of chunks.new.items ≡ remove_entry (is_at (K.cmp key.now)) (rows_of chunks.old.items) }
    ensures value { result ≡ lookup (is_at (K.cmp key.now)) (rows_of chunks.old.items) }
    ensures filled { AreFilled chunks.new.items }
    ensures roomy { AreRoomy chunks.new.items }
    ensures fewer { length chunks.new.items ≤ length chunks.old.items }
    ensures capacity { vec_capacity chunks.new ≡ vec_capacity chunks.old }
{
    let mut chunk = chunks.remove(place);
    let row = place_of(&chunk, key);
    let value = take_from(&mut chunk, row, key);
    if !chunk.is_empty() {
        insert_chunk(chunks, place, chunk);
    }
    value
}

// The first row behind the key.
fn row_behind<'a, K: Ord, V>(chunks: &'a [Vec<(K, V)>], key: &K) -> Option<&'a (K, V)>
    requires filled { AreFilled chunks.now }
    requires sorted { AreRows K.cmp (rows_of chunks.now) }
    ensures { option_copied result ≡ row_after K.cmp key.now (rows_of chunks.now) }
{
    if chunks.len() == 0 {
        return None;
    }
    let place = chunk_of(chunks, key);
    match first_after(&chunks[place], key) {
        Some(row) => Some(row),
        None => first_from(chunks, place + 1),
    }
}
