//! A place among the chunks.
ghost use Rattle.std.specs.Prelude.{◌≡◌, ◌<◌, ◌≤◌, suc, true, false, drop, length, slice_index_or, Vec};
ghost use Rattle.std.specs.declared.alloc.Global.{Global};
ghost use Rattle.ordered_index.specs.Chunks.{AreBehind, AreFilled, IsSpotOf, rows_of, starts_by};
ghost use Rattle.ordered_index.specs.Rows.{AreRows, rank};

use crate::chunks::{chunk_of, starts};
use crate::rows::{is_at_most, is_behind, place_of};

/// A chunk and a place in it.
#[derive(Clone, Copy, Drop)]
pub struct Spot {
    pub chunk: usize,
    pub row: usize,
}

/// Where the row of the key stands, or would stand: by halving.
pub fn spot_of<K: Ord, V>(chunks: &[Vec<(K, V)>], key: &K) -> Spot
    requires some { 0 < length chunks.now }
    requires filled { AreFilled chunks.now }
    requires sorted { AreRows K.cmp (rows_of chunks.now) }
    ensures { IsSpotOf K.cmp key.now chunks.now result }
{
    let chunk = chunk_of(chunks, key);
    Spot {
        chunk,
        row: place_of(&chunks[chunk], key),
    }
}

/// The same, by a look at a spot that may be it, and else by halving.
pub fn spot_near<K: Ord, V>(chunks: &[Vec<(K, V)>], near: Spot, key: &K) -> Spot
    requires some { 0 < length chunks.now }
    requires filled { AreFilled chunks.now }
    requires sorted { AreRows K.cmp (rows_of chunks.now) }
    ensures { IsSpotOf K.cmp key.now chunks.now result }
{
    if is_spot(chunks, near, key) {
        near
    } else {
        spot_of(chunks, key)
    }
}

// Whether the rows beside the spot show that the key belongs there. At the front of a chunk they never do.
fn is_spot<K: Ord, V>(chunks: &[Vec<(K, V)>], spot: Spot, key: &K) -> bool
    requires filled { AreFilled chunks.now }
    requires sorted { AreRows K.cmp (rows_of chunks.now) }
    ensures { result ≡ true → IsSpotOf K.cmp key.now chunks.now spot }
{
    if spot.chunk >= chunks.len() || !is_behind(&chunks[spot.chunk], spot.row, key) {
        return false;
    }
    is_before_rest(chunks, spot, key)
}

// Whether the row at the spot doesn't stand before the key, or, where its chunk ends there, the next one starts
// behind the key.
fn is_before_rest<K: Ord, V>(chunks: &[Vec<(K, V)>], spot: Spot, key: &K) -> bool
    requires inside { spot.chunk < length chunks.now }
    requires filled { AreFilled chunks.now }
    requires sorted { AreRows K.cmp (rows_of chunks.now) }
    ensures rows { result ≡ true → (d : Vec (K × V) Global) →
        rank K.cmp key.now (slice_index_or chunks.now spot.chunk d).items ≤ spot.row }
    ensures chunks { result ≡ true → AreBehind K.cmp key.now (rows_of (drop (suc spot.chunk) chunks.now)) }
{
    if spot.row < chunks[spot.chunk].len() {
        is_at_most(&chunks[spot.chunk], spot.row, key)
    } else {
        is_before_chunk(chunks, spot.chunk + 1, key)
    }
}

// Whether the chunk at the place, if there is one, starts behind the key.
fn is_before_chunk<K: Ord, V>(chunks: &[Vec<(K, V)>], place: usize, key: &K) -> bool
    ensures { result ≡ true → (d : Vec (K × V) Global) → place < length chunks.now →
        starts_by K.cmp key.now (slice_index_or chunks.now place d).items ≡ false }
{
    place >= chunks.len() || !starts(&chunks[place], key)
}
