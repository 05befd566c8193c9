//! Test 5: the extents of all data sets together.
ghost use Rattle.std.specs.Prelude.{◌≡◌, ◌≤◌, ◌<◌, ◌+◌, ℕ, List, IfOk, length};
ghost use Rattle.std.specs.List.{AllByRecursion};
ghost use Rattle.std.specs.List.Sorted.{IsPermutation, IsSorted};
ghost use Rattle.track_ledger.specs.Gaps.{times_held};
ghost use Rattle.desk_law.specs.Extents.{extents_of, pieces_on};
ghost use Rattle.sms_open.specs.Inner.Meeting.{AreChained, Follows, HasTracks, place_cmp};
ghost use Rattle.sms_open.specs.Verdicts.{Tells};

use desk_common::Shared;
use sms_construct::{DataSet, Extent};
use std::alloc::{AllocError, Global};
use std::cmp::Ordering;

fn all_extents(alloc: Global, sets: &[Shared<DataSet>]) -> Result<Vec<Extent>, AllocError>
    ensures { IfOk result (λ extents. extents.items ≡ extents_of sets.now) }
{
    let mut extents = Vec::new(alloc);
    for set in sets {
        extents.extend_from_slice(set.get().extents.as_slice())?;
    }
    Ok(extents)
}

fn in_order(one: &Extent, other: &Extent) -> Ordering
    ensures { result ≡ place_cmp one.now other.now }
{
    one.volser
        .cmp(&other.volser)
        .then(one.start.cmp(&other.start))
}

fn sort_extents(extents: &mut Vec<Extent>)
    ensures permutation { IsPermutation extents.old.items extents.new.items }
    ensures sorted { IsSorted place_cmp extents.new.items }
{
    extents.sort_unstable_by(|one, other| in_order(one, other));
}

// Whether the second extent lies behind the first, or on a volume behind its.
fn follows(first: &Extent, second: &Extent) -> bool
    ensures { Tells (Follows first.now second.now) result }
{
    if first.volser < second.volser {
        return true;
    }
    if first.volser != second.volser {
        return false;
    }
    u64::from(first.start) + u64::from(first.length) <= u64::from(second.start)
}

// Whether no two of the extents, in the order of their volumes and starts, hold one track.
fn are_chained(extents: &[Extent]) -> bool
    ensures { Tells (AreChained extents.now) result }
{
    for place in 1..extents.len() {
        if !follows(&extents[place - 1], &extents[place]) {
            return false;
        }
    }
    true
}

/// Whether no track of a volume is held twice by the extents of the data sets, none of which is empty; or want of
/// memory.
pub fn are_once(alloc: Global, sets: &[Shared<DataSet>]) -> Result<bool, AllocError>
    requires { AllByRecursion HasTracks sets.now }
    ensures { IfOk result (Tells ((volser : List ℕ) (track : ℕ) →
        times_held (pieces_on volser (extents_of sets.now)) track ≤ 1)) }
{
    let mut extents = all_extents(alloc, sets)?;
    sort_extents(&mut extents);
    Ok(are_chained(&extents))
}
