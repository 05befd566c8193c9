// A text beside a filter list.
ghost use Rattle.std.specs.Prelude.{◌≡◌, ◌<◌};
ghost use Rattle.std.specs.List.{slice_get};
ghost use Rattle.dsn_mask.specs.Filter.{passes_filter};
ghost use Rattle.acs_run.specs.Inner.Seen.{passes_if_any};

use dsn_mask::{FilterIndex, Short, Steps};
use std::marker::Brand;
use std::sync::ledger::{Blank, Ledger};

/// Whether the text passes the filter list at a place.
pub fn passes(filters: &[FilterIndex], place: u64, text: &Short) -> bool
    ensures { result ≡ passes_if_any text.now (slice_get filters.now place) }
{
    match filters.get(place as usize) {
        None => false,
        Some(filter) => has::<Brand>(filter, text, Blank::new(1)),
    }
}

fn has<L: Ledger>(filter: &FilterIndex, text: &Short, blank: Blank) -> bool
    requires name { blank.name ≡ L.name }
    requires parts { blank.parts ≡ L.parts }
    requires some { 0 < blank.parts }
    ensures { result ≡ passes_filter text.now filter.now.include filter.now.exclude }
{
    let mut steps = Steps::<L>::new(blank);
    filter.has(text, &mut steps)
}
