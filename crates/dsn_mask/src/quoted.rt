// The places of quoted entries, sorted by text, and how a text is found by them.
ghost use Rattle.std.specs.Prelude.{◌≡◌, ◌≤◌, ◌<◌, ◌+◌, ◌-◌, ◌*◌, ◌^◌, drop, length, map, take, IfOk, IsPermutation};
ghost use Rattle.std.specs.Prelude.{IsSorted, OnOk, bytes_eq};
ghost use Rattle.std.specs.List.{list_any};
ghost use Rattle.std.specs.List.Sorted.{IsNonDecreasingBy};
ghost use Rattle.std.specs.Ordering.{nat_cmp, ordering_index};
ghost use Rattle.std.specs.Cmp.Lexicographic.{slice_cmp};
ghost use Rattle.dsn_mask.specs.Quoted.{AreSortedPlaces, text_at, texts_of};

use crate::steps::Steps;
use crate::{Entry, Short};
use desk_common::Items;
use std::alloc::{AllocError, Global};
use std::cmp::Ordering;
use std::sync::ledger::Ledger;

/// The text of the quoted entry at a place, and nothing where there is none.
fn text_at(entries: &[Entry], place: usize) -> &[u8]
    ensures { result.now ≡ text_at entries.now place }
{
    match entries.get(place) {
        Some(Entry::Quoted(text)) => text.bytes(),
        _ => b"",
    }
}

fn push_place(places: &mut Vec<usize>, entries: &[Entry], place: usize) -> Result<(), AllocError>
    requires inside { place < length entries.now }
    requires before { map (text_at entries.now) places.old.items ≡ texts_of (take place entries.now) }
    ensures { OnOk result (map (text_at entries.now) places.new.items ≡ texts_of (take (place + 1) entries.now)) }
{
    if entries[place].is_quoted() {
        places.push(place)?;
    }
    Ok(())
}

fn in_order(entries: &[Entry], one: usize, other: usize) -> Ordering
    ensures { result ≡ slice_cmp nat_cmp (text_at entries.now one) (text_at entries.now other) }
{
    text_at(entries, one).cmp(text_at(entries, other))
}

fn sort_places(entries: &[Entry], places: &mut Vec<usize>)
    ensures permutation { IsPermutation places.old.items places.new.items }
    ensures sorted { IsSorted (slice_cmp nat_cmp) (map (text_at entries.now) places.new.items) }
{
    places.sort_unstable_by(|one, other| in_order(entries, *one, *other));
}

/// The places of the quoted entries in the order of their texts' bytes.
pub fn sorted_places(alloc: Global, entries: &[Entry]) -> Result<Items<usize>, AllocError>
    ensures { IfOk result (AreSortedPlaces entries.now) }
{
    let mut places = Vec::new(alloc);
    for place in 0..entries.len() {
        push_place(&mut places, entries, place)?;
    }
    sort_places(entries, &mut places);
    Ok(Items::from_vec(places))
}

// How a text stands to a value. Each comparison of texts is made here, and is one step.
fn compared<L: Ledger>(text: &[u8], value: &Short, steps: &mut Steps<L>) -> Ordering
    ensures order { result ≡ slice_cmp nat_cmp text.now value.now }
    ensures counted { steps.new ≡ steps.old + 1 }
{
    steps.tick();
    text.cmp(value.bytes())
}

fn behind(places: &[usize], at: usize) -> &[usize]
    requires { at < length places.now }
    ensures { result.now ≡ drop (at + 1) places.now }
{
    &places[at + 1..]
}

/// Whether the value is the text at one of these places, which are sorted by text: by halving.
pub fn find<L: Ledger>(
    entries: &[Entry],
    places: &[usize],
    value: &Short,
    steps: &mut Steps<L>,
) -> bool
    requires rises { IsNonDecreasingBy (λ text. ordering_index (slice_cmp nat_cmp text value.now))
        (map (text_at entries.now) places.now) }
    ensures found { result ≡ list_any (λ text. bytes_eq text value.now) (map (text_at entries.now) places.now) }
    ensures later { steps.old ≤ steps.new }
    ensures counted { 2 ^ (steps.new - steps.old) ≤ 2 * length places.now + 1 }
{
    let mut rest = places;
    while !rest.is_empty() {
        let half = rest.len() / 2;
        match compared(text_at(entries, rest[half]), value, steps) {
            Ordering::Equal => return true,
            Ordering::Less => rest = behind(rest, half),
            Ordering::Greater => rest = &rest[..half],
        }
    }
    false
}
