//! Chunks of rows.
ghost use Rattle.std.specs.Prelude.{◌≡◌, ◌<◌, drop, length, slice_get, slice_index_or, vec_capacity, Vec};
ghost use Rattle.std.specs.BTreeMap.{insert_entry, is_at};
ghost use Rattle.std.specs.Map.{lookup, remove_entry};
ghost use Rattle.std.specs.Option.{option_copied};
ghost use Rattle.ordered_index.specs.Rows.{AreRows, add_entry, is_free};
ghost use Rattle.ordered_index.specs.Chunks.{AreFilled, IsChunkOf, IsSpotOf, rows_of, starts_by};
ghost use Rattle.ordered_index.specs.Room.{AreRoomy, chunk_room};
ghost use Rattle.std.specs.declared.alloc.Global.{Global};

use crate::rows::{add_in, is_free_in, put_in, row_at, take_from, value_in};
use crate::spot::{Spot, spot_of};
use std::cell::Cell;

/// Whether the first row stands before the key or at it.
pub fn starts<K: Ord, V>(chunk: &[(K, V)], key: &K) -> bool
    ensures { result ≡ starts_by K.cmp key.now chunk.now }
{
    match row_at(chunk, 0) {
        Some(row) => !key.cmp(&row.0).is_lt(),
        None => false,
    }
}

/// The place of the chunk that has the key, or would have it: by halving.
pub fn chunk_of<K: Ord, V>(chunks: &[Vec<(K, V)>], key: &K) -> usize
    requires some { 0 < length chunks.now }
    requires filled { AreFilled chunks.now }
    requires sorted { AreRows K.cmp (rows_of chunks.now) }
    ensures { IsChunkOf K.cmp key.now chunks.now result }
{
    let count = chunks.partition_point(
        |chunk: &Vec<(K, V)>| -> bool
            ensures { result ≡ starts_by K.cmp key.entry.now chunk.now.items }
        { starts(chunk, key) },
    );
    if count == 0 { 0 } else { count - 1 }
}

/// The value of the key; where the look for it ended is noted.
pub fn value_among<'a, K: Ord, V>(
    chunks: &'a [Vec<(K, V)>],
    key: &K,
    last: &Cell<Spot>,
) -> Option<&'a V>
    requires filled { AreFilled chunks.now }
    requires sorted { AreRows K.cmp (rows_of chunks.now) }
    ensures { option_copied result ≡ lookup (is_at (K.cmp key.now)) (rows_of chunks.now) }
{
    if chunks.len() == 0 {
        return None;
    }
    let spot = spot_of(chunks, key);
    last.set(spot);
    value_in(&chunks[spot.chunk], spot.row, key)
}

/// Puts a value in place of the one of its key, or adds it to its chunk, which isn't full, and gives the old one.
pub fn put_among<K: Ord + Drop, V: Drop>(
    chunks: &mut Vec<Vec<(K, V)>>,
    spot: Spot,
    key: K,
    value: V,
) -> Option<V>
    requires is { IsSpotOf K.cmp key chunks.old.items spot }
    requires filled { AreFilled chunks.old.items }
    requires sorted { AreRows K.cmp (rows_of chunks.old.items) }
    requires roomy { AreRoomy chunks.old.items }
    requires room { (d : Vec (K × V) Global) →
        length (slice_index_or chunks.old.items spot.chunk d).items < chunk_room }
    ensures rows { rows_of chunks.new.items ≡ insert_entry K.cmp (rows_of chunks.old.items) key value }
    ensures value { result ≡ lookup (is_at (K.cmp key)) (rows_of chunks.old.items) }
    ensures filled { AreFilled chunks.new.items }
    ensures roomy { AreRoomy chunks.new.items }
    ensures same { (length chunks.new.items ≡ length chunks.old.items) ×
        (vec_capacity chunks.new ≡ vec_capacity chunks.old) }
{
    put_in(&mut chunks[spot.chunk], spot.row, key, value)
}

/// Whether no row has the key, for which its chunk is looked into.
pub fn is_free_among<K: Ord, V>(chunks: &[Vec<(K, V)>], spot: Spot, key: &K) -> bool
    requires is { IsSpotOf K.cmp key.now chunks.now spot }
    requires sorted { AreRows K.cmp (rows_of chunks.now) }
    ensures { result ≡ is_free K.cmp key.now (rows_of chunks.now) }
{
    is_free_in(&chunks[spot.chunk], spot.row, key)
}

/// Adds the row to its chunk, which isn't full, where none has its key, and tells whether it did.
pub fn add_among<K: Ord + Drop, V: Drop>(
    chunks: &mut Vec<Vec<(K, V)>>,
    spot: Spot,
    key: K,
    value: V,
) -> bool
    requires is { IsSpotOf K.cmp key chunks.old.items spot }
    requires filled { AreFilled chunks.old.items }
    requires sorted { AreRows K.cmp (rows_of chunks.old.items) }
    requires roomy { AreRoomy chunks.old.items }
    requires room { (d : Vec (K × V) Global) →
        length (slice_index_or chunks.old.items spot.chunk d).items < chunk_room }
    ensures rows { rows_of chunks.new.items ≡ add_entry K.cmp (rows_of chunks.old.items) key value }
    ensures added { result ≡ is_free K.cmp key (rows_of chunks.old.items) }
    ensures filled { AreFilled chunks.new.items }
    ensures roomy { AreRoomy chunks.new.items }
    ensures same { (length chunks.new.items ≡ length chunks.old.items) ×
        (vec_capacity chunks.new ≡ vec_capacity chunks.old) }
{
    add_in(&mut chunks[spot.chunk], spot.row, key, value)
}

/// Takes the row of the key from its chunk, which has more than one, and gives its value.
pub fn take_among<K: Ord + Drop, V: Drop>(
    chunks: &mut Vec<Vec<(K, V)>>,
    spot: Spot,
    key: &K,
) -> Option<V>
    requires is { IsSpotOf K.cmp key.now chunks.old.items spot }
    requires filled { AreFilled chunks.old.items }
    requires sorted { AreRows K.cmp (rows_of chunks.old.items) }
    requires roomy { AreRoomy chunks.old.items }
    requires more { (d : Vec (K × V) Global) → 1 < length (slice_index_or chunks.old.items spot.chunk d).items }
    ensures rows { rows_of chunks.new.items ≡ remove_entry (is_at (K.cmp key.now)) (rows_of chunks.old.items) }
    ensures value { result ≡ lookup (is_at (K.cmp key.now)) (rows_of chunks.old.items) }
    ensures filled { AreFilled chunks.new.items }
    ensures roomy { AreRoomy chunks.new.items }
    ensures same { (length chunks.new.items ≡ length chunks.old.items) ×
        (vec_capacity chunks.new ≡ vec_capacity chunks.old) }
{
    take_from(&mut chunks[spot.chunk], spot.row, key)
}

/// The first row of the chunks from a place on.
pub fn first_from<K: Ord, V>(chunks: &[Vec<(K, V)>], index: usize) -> Option<&(K, V)>
    requires { AreFilled chunks.now }
    ensures { option_copied result ≡ slice_get (rows_of (drop index chunks.now)) 0 }
{
    if index < chunks.len() {
        row_at(&chunks[index], 0)
    } else {
        None
    }
}
