//! Filter lists, made ready to be searched.
ghost use Rattle.std.specs.Prelude.{◌≡◌, ◌≤◌, ◌-◌, ◌&&◌, ◌||◌, ◌↔◌, IsTrue, IfOk};
ghost use Rattle.std.specs.List.{list_any};
ghost use Rattle.dsn_mask.specs.MaskTest.{is_empty};
ghost use Rattle.dsn_mask.specs.Filter.{PassesFilter, entry_fits, passes_filter};
ghost use Rattle.dsn_mask.specs.Quoted.{AreFew, RoseByHalving, fits_as_mask};

use crate::quoted::{find, sorted_places};
use crate::steps::Steps;
use crate::{Entry, Short};
use desk_common::Items;
use std::alloc::{AllocError, Global};
use std::marker::Model;
use std::sync::ledger::Ledger;

/// A list as it was handed in, and beside it the places of its quoted entries in the order of their texts.
#[derive(Drop)]
pub struct Searchable {
    entries: Items<Entry>,
    places: Items<usize>,
}

impl Model for Searchable {
    ghost use Rattle.std.specs.Prelude.{List};
    ghost use Rattle.dsn_mask.specs.declared.entry.Entry.{Entry};
    ghost use Rattle.dsn_mask.specs.Quoted.{AreSortedPlaces};

    ghost Value = { List Entry };

    ghost view = { λ s. s.entries };

    ghost invariant = { λ s. AreSortedPlaces s.entries s.places };
}

fn any_mask_fits(entries: &[Entry], value: &Short) -> bool
    ensures { result ≡ list_any (fits_as_mask value.now) entries.now }
{
    entries.iter().any(|entry| entry.fits_as_mask(value))
}

impl Searchable {
    fn new(alloc: Global, entries: &[Entry]) -> Result<Self, AllocError>
        ensures { IfOk result (λ list. list ≡ entries.now) }
    {
        Ok(Searchable {
            entries: Items::from_slice(alloc, entries)?,
            places: sorted_places(alloc, entries)?,
        })
    }

    fn is_empty(&self) -> bool
        ensures { result ≡ is_empty self.now }
    {
        self.entries.as_slice().is_empty()
    }

    // The quoted entries are searched first, since that is the shorter way.
    fn any_fits<L: Ledger>(&self, value: &Short, steps: &mut Steps<L>) -> bool
        ensures fits { result ≡ list_any (entry_fits value.now) self.now }
        ensures later { steps.old ≤ steps.new }
        ensures counted { AreFew (steps.new - steps.old) self.now }
    {
        let entries = self.entries.as_slice();
        find(entries, self.places.as_slice(), value, steps) || any_mask_fits(entries, value)
    }
}

/// The entries of INCLUDE and of EXCLUDE (docs/manual/acs-language.md, "Filter lists").
#[derive(Drop)]
pub struct FilterIndex {
    include: Searchable,
    exclude: Searchable,
}

impl Model for FilterIndex {
    ghost use Rattle.dsn_mask.specs.Filter.{FilterLists};

    ghost Value = { FilterLists };

    ghost view = { λ s. record { include = s.include; exclude = s.exclude } };
}

impl FilterIndex {
    /// The lists with the places of their quoted entries put in order, or want of memory.
    pub fn build(alloc: Global, include: &[Entry], exclude: &[Entry]) -> Result<Self, AllocError>
        ensures { IfOk result (λ index. (index.include ≡ include.now) × (index.exclude ≡ exclude.now)) }
    {
        Ok(FilterIndex {
            include: Searchable::new(alloc, include)?,
            exclude: Searchable::new(alloc, exclude)?,
        })
    }

    // No entry at all includes each value.
    fn is_included<L: Ledger>(&self, value: &Short, steps: &mut Steps<L>) -> bool
        ensures fits { result ≡ (is_empty self.now.include || list_any (entry_fits value.now) self.now.include) }
        ensures later { steps.old ≤ steps.new }
        ensures counted { AreFew (steps.new - steps.old) self.now.include }
    {
        self.include.is_empty() || self.include.any_fits(value, steps)
    }

    fn passes<L: Ledger>(&self, value: &Short, steps: &mut Steps<L>) -> bool
        ensures value { result ≡ passes_filter value.now self.now.include self.now.exclude }
        ensures counted { RoseByHalving self.now.include self.now.exclude steps.old steps.new }
    {
        self.is_included(value, steps) && !self.exclude.any_fits(value, steps)
    }

    /// Whether the value passes the lists. A step is one comparison of the value with the text of a quoted entry;
    /// what masks take is not counted.
    pub fn has<L: Ledger>(&self, value: &Short, steps: &mut Steps<L>) -> bool
        ensures exact { IsTrue result ↔ PassesFilter value.now self.now.include self.now.exclude }
        ensures value { result ≡ passes_filter value.now self.now.include self.now.exclude }
        ensures counted { RoseByHalving self.now.include self.now.exclude steps.old steps.new }
    {
        self.passes(value, steps)
    }
}
