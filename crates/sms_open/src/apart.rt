//! Keys that stand once.
ghost use Rattle.std.specs.Prelude.{◌≡◌, IfOk};
ghost use Rattle.std.specs.BTreeMap.{is_at};
ghost use Rattle.std.specs.Map.{lookup};
ghost use Rattle.sms_open.specs.Inner.Keys.{AreApart, AreAsOften, times_found, times_key};
ghost use Rattle.sms_open.specs.Verdicts.{Tells};

use ordered_index::OrderedIndex;
use std::alloc::{AllocError, Global};

/// Whether no key stands twice; or want of memory.
pub fn are_apart<K: Ord + Copy + Drop>(alloc: Global, keys: &[K]) -> Result<bool, AllocError>
    ensures { IfOk result (Tells (AreApart K.cmp keys.now)) }
{
    let mut seen: OrderedIndex<K, bool> = OrderedIndex::new(alloc);
    for key in keys {
        seen.reserve()?;
        if seen.put(*key, true).is_some() {
            return Ok(false);
        }
    }
    Ok(true)
}

// The keys, to be found one by one.
fn wanted_keys<K: Ord + Copy + Drop>(
    alloc: Global,
    keys: &[K],
) -> Result<OrderedIndex<K, bool>, AllocError>
    requires { AreApart K.cmp keys.now }
    ensures { IfOk result (λ index. (key : K) →
        times_found (lookup (is_at (K.cmp key)) index.rows) ≡ times_key K.cmp key keys.now) }
{
    let mut index: OrderedIndex<K, bool> = OrderedIndex::new(alloc);
    for key in keys {
        index.reserve()?;
        index.put(*key, true);
    }
    Ok(index)
}

/// Whether each key stands as often among the found ones as among the wanted ones, of which none stands twice; or want
/// of memory.
pub fn are_as_often<K: Ord + Copy + Drop>(
    alloc: Global,
    wanted: &[K],
    found: &[K],
) -> Result<bool, AllocError>
    requires { AreApart K.cmp wanted.now }
    ensures { IfOk result (Tells (AreAsOften K.cmp wanted.now found.now)) }
{
    let mut left = wanted_keys(alloc, wanted)?;
    for key in found {
        if left.remove(key).is_none() {
            return Ok(false);
        }
    }
    Ok(left.first().is_none())
}
