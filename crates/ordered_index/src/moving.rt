//! Rows moved between chunks.
ghost use Rattle.std.specs.Prelude.{◌≡◌, ◌<◌, ◌≤◌, ◌+◌, ◌++◌, length, slice_index_or, vec_capacity, Vec};
ghost use Rattle.std.specs.Prelude.{if◌then◌else◌};
ghost use Rattle.std.specs.List.{insert};
ghost use Rattle.std.specs.declared.alloc.Global.{Global};
ghost use Rattle.std.specs.BTreeMap.{insert_entry, is_at};
ghost use Rattle.std.specs.Map.{lookup};
ghost use Rattle.ordered_index.specs.Rows.{AreRows, add_entry, is_free};
ghost use Rattle.ordered_index.specs.Chunks.{AreFilled, IsChunkOf, IsSpotOf, rows_of};
ghost use Rattle.ordered_index.specs.Room.{AreRoomy, IsIndex, IsSpare, chunk_room, half_room};

use crate::chunks::{is_free_among, starts};
use crate::rows::{place_of, put_in};
use crate::spot::Spot;

/// How many rows a chunk has room for.
pub const ROOM: usize = 64;

/// How many rows stay in a chunk that is parted, and how many two chunks have together at most that are joined behind a
/// removal; behind a put they are joined up to `ROOM`.
const HALF: usize = 32;

/// Moves the later half of a full chunk to an empty one.
pub fn move_half<K, V>(chunk: &mut Vec<(K, V)>, behind: &mut Vec<(K, V)>)
    requires full { length chunk.old.items ≡ chunk_room }
    requires spare { IsSpare behind.old }
    ensures rows { chunk.new.items ++ behind.new.items ≡ chunk.old.items }
    ensures front { length chunk.new.items ≡ half_room }
    ensures back { length behind.new.items ≡ half_room }
    ensures capacity { vec_capacity chunk.new ≡ vec_capacity chunk.old }
    ensures room { vec_capacity behind.new ≡ vec_capacity behind.old }
{
    while chunk.len() > HALF {
        behind.push_reserved(chunk.take_last());
    }
    behind.reverse();
}

/// Puts a value in the one of two neighbours that has its key, or would have it.
pub fn put_in_either<K: Ord + Drop, V: Drop>(
    front: &mut Vec<(K, V)>,
    behind: &mut Vec<(K, V)>,
    key: K,
    value: V,
) -> Option<V>
    requires sorted { AreRows K.cmp (front.old.items ++ behind.old.items) }
    requires some { 0 < length behind.old.items }
    requires front { length front.old.items < vec_capacity front.old }
    requires behind { length behind.old.items < vec_capacity behind.old }
    ensures rows { front.new.items ++ behind.new.items
        ≡ insert_entry K.cmp (front.old.items ++ behind.old.items) key value }
    ensures value { result ≡ lookup (is_at (K.cmp key)) (front.old.items ++ behind.old.items) }
    ensures front { (length front.old.items ≤ length front.new.items) ×
        (length front.new.items ≤ length front.old.items + 1) × (vec_capacity front.new ≡ vec_capacity front.old) }
    ensures behind { (length behind.old.items ≤ length behind.new.items) ×
        (length behind.new.items ≤ length behind.old.items + 1) × (vec_capacity behind.new ≡ vec_capacity behind.old) }
{
    if starts(behind, &key) {
        let place = place_of(behind, &key);
        put_in(behind, place, key, value)
    } else {
        let place = place_of(front, &key);
        put_in(front, place, key, value)
    }
}

/// Puts a value in a full chunk, whose later half goes to a spare one behind it. Each half is joined with the chunk
/// beside it where one has room for both, so that keys that come in order fill their chunks.
pub fn put_in_full<K: Ord + Drop, V: Drop>(
    chunks: &mut Vec<Vec<(K, V)>>,
    spares: &mut Vec<Vec<(K, V)>>,
    place: usize,
    key: K,
    value: V,
) -> Option<V>
    requires is { IsChunkOf K.cmp key chunks.old.items place }
    requires index { IsIndex K.cmp chunks.old spares.old }
    requires full { (d : Vec (K × V) Global) → length (slice_index_or chunks.old.items place d).items ≡ chunk_room }
    requires some { 0 < length spares.old.items }
    ensures index { IsIndex K.cmp chunks.new spares.new }
    ensures spares { length spares.old.items ≤ length spares.new.items + 1 }
    ensures rows { rows_of chunks.new.items ≡ insert_entry K.cmp (rows_of chunks.old.items) key value }
    ensures value { result ≡ lookup (is_at (K.cmp key)) (rows_of chunks.old.items) }
{
    let old = put_parted(chunks, spares, place, key, value);
    join_halves(chunks, place);
    old
}

/// Adds the row to its chunk, which is full, where none has its key, and tells whether it did.
pub fn add_in_full<K: Ord + Drop, V: Drop>(
    chunks: &mut Vec<Vec<(K, V)>>,
    spares: &mut Vec<Vec<(K, V)>>,
    spot: Spot,
    key: K,
    value: V,
) -> bool
    requires is { IsSpotOf K.cmp key chunks.old.items spot }
    requires index { IsIndex K.cmp chunks.old spares.old }
    requires full { (d : Vec (K × V) Global) →
        length (slice_index_or chunks.old.items spot.chunk d).items ≡ chunk_room }
    requires some { 0 < length spares.old.items }
    ensures index { IsIndex K.cmp chunks.new spares.new }
    ensures spares { length spares.old.items ≤ length spares.new.items + (if result then 1 else 0) }
    ensures rows { rows_of chunks.new.items ≡ add_entry K.cmp (rows_of chunks.old.items) key value }
    ensures added { result ≡ is_free K.cmp key (rows_of chunks.old.items) }
{
    if is_free_among(chunks, spot, &key) {
        put_in_full(chunks, spares, spot.chunk, key, value);
        true
    } else {
        false
    }
}

// Puts a value in a full chunk, whose later half goes to a spare one behind it.
fn put_parted<K: Ord + Drop, V: Drop>(
    chunks: &mut Vec<Vec<(K, V)>>,
    spares: &mut Vec<Vec<(K, V)>>,
    place: usize,
    key: K,
    value: V,
) -> Option<V>
    requires is { IsChunkOf K.cmp key chunks.old.items place }
    requires index { IsIndex K.cmp chunks.old spares.old }
    requires full { (d : Vec (K × V) Global) → length (slice_index_or chunks.old.items place d).items ≡ chunk_room }
    requires some { 0 < length spares.old.items }
    ensures index { IsIndex K.cmp chunks.new spares.new }
    ensures spares { length spares.old.items ≤ length spares.new.items + 1 }
    ensures more { length chunks.new.items ≡ length chunks.old.items + 1 }
    ensures rows { rows_of chunks.new.items ≡ insert_entry K.cmp (rows_of chunks.old.items) key value }
    ensures value { result ≡ lookup (is_at (K.cmp key)) (rows_of chunks.old.items) }
{
    let mut front = chunks.remove(place);
    let mut behind = spares.take_last();
    move_half(&mut front, &mut behind);
    let old = put_in_either(&mut front, &mut behind, key, value);
    insert_chunk(chunks, place, behind);
    insert_chunk(chunks, place, front);
    old
}

// Joins the chunk at the place with the one before it, and the next one with the one behind that, where one chunk has
// room for both.
fn join_halves<K: Drop, V: Drop>(chunks: &mut Vec<Vec<(K, V)>>, place: usize)
    requires inside { place < length chunks.old.items }
    requires filled { AreFilled chunks.old.items }
    requires roomy { AreRoomy chunks.old.items }
    ensures rows { rows_of chunks.new.items ≡ rows_of chunks.old.items }
    ensures filled { AreFilled chunks.new.items }
    ensures roomy { AreRoomy chunks.new.items }
    ensures fewer { length chunks.new.items ≤ length chunks.old.items }
    ensures capacity { vec_capacity chunks.new ≡ vec_capacity chunks.old }
{
    join_under(chunks, place + 1, ROOM);
    if place > 0 {
        join_under(chunks, place - 1, ROOM);
    }
}

/// Joins the chunk at the place with its neighbours, where they have few rows together.
pub fn join_around<K: Drop, V: Drop>(chunks: &mut Vec<Vec<(K, V)>>, place: usize)
    requires filled { AreFilled chunks.old.items }
    requires roomy { AreRoomy chunks.old.items }
    ensures rows { rows_of chunks.new.items ≡ rows_of chunks.old.items }
    ensures filled { AreFilled chunks.new.items }
    ensures roomy { AreRoomy chunks.new.items }
    ensures fewer { length chunks.new.items ≤ length chunks.old.items }
    ensures capacity { vec_capacity chunks.new ≡ vec_capacity chunks.old }
{
    join_under(chunks, place, HALF);
    if place > 0 {
        join_under(chunks, place - 1, HALF);
    }
}

// Joins the chunk at the place with the next one, where they have at most so many rows together.
fn join_under<K: Drop, V: Drop>(chunks: &mut Vec<Vec<(K, V)>>, place: usize, most: usize)
    requires most { most ≤ chunk_room }
    requires filled { AreFilled chunks.old.items }
    requires roomy { AreRoomy chunks.old.items }
    ensures rows { rows_of chunks.new.items ≡ rows_of chunks.old.items }
    ensures filled { AreFilled chunks.new.items }
    ensures roomy { AreRoomy chunks.new.items }
    ensures fewer { length chunks.new.items ≤ length chunks.old.items }
    ensures capacity { vec_capacity chunks.new ≡ vec_capacity chunks.old }
{
    if chunks.len() < 2 || place > chunks.len() - 2 {
        return;
    }
    if chunks[place].len() + chunks[place + 1].len() <= most {
        join_next(chunks, place);
    }
}

// Joins the chunk at the place with the next one.
fn join_next<K: Drop, V: Drop>(chunks: &mut Vec<Vec<(K, V)>>, place: usize)
    requires inside { place + 1 < length chunks.old.items }
    requires filled { AreFilled chunks.old.items }
    requires roomy { AreRoomy chunks.old.items }
    requires few { (d e : Vec (K × V) Global) →
        length (slice_index_or chunks.old.items place d).items
        + length (slice_index_or chunks.old.items (place + 1) e).items ≤ chunk_room }
    ensures rows { rows_of chunks.new.items ≡ rows_of chunks.old.items }
    ensures filled { AreFilled chunks.new.items }
    ensures roomy { AreRoomy chunks.new.items }
    ensures fewer { length chunks.new.items ≤ length chunks.old.items }
    ensures capacity { vec_capacity chunks.new ≡ vec_capacity chunks.old }
{
    let next = chunks.remove(place + 1);
    let mut chunk = chunks.remove(place);
    append_rows(&mut chunk, next);
    insert_chunk(chunks, place, chunk);
}

// Puts the rows behind those of the chunk, which has room for them.
fn append_rows<K: Drop, V: Drop>(chunk: &mut Vec<(K, V)>, rows: Vec<(K, V)>)
    requires { length chunk.old.items + length rows.items ≤ vec_capacity chunk.old }
    ensures rows { chunk.new.items ≡ chunk.old.items ++ rows.items }
    ensures capacity { vec_capacity chunk.old ≤ vec_capacity chunk.new }
{
    let mut rows = rows;
    if chunk.append(&mut rows).is_err() {
        unreachable!();
    }
}

/// Puts the chunk at the place, where there is room for one more.
pub fn insert_chunk<K: Drop, V: Drop>(
    chunks: &mut Vec<Vec<(K, V)>>,
    place: usize,
    chunk: Vec<(K, V)>,
)
    requires inside { place ≤ length chunks.old.items }
    requires room { length chunks.old.items < vec_capacity chunks.old }
    ensures chunks { chunks.new.items ≡ insert chunks.old.items place chunk }
    ensures more { length chunks.new.items ≡ length chunks.old.items + 1 }
    ensures capacity { vec_capacity chunks.new ≡ vec_capacity chunks.old }
{
    if chunks.insert(place, chunk).is_err() {
        unreachable!();
    }
}
