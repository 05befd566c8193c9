//! How often something happened at each token of a routine.
ghost use Rattle.std.specs.Prelude.{◌≡◌, ◌<◌, ◌^◌, ◌++◌, ◌∷◌, [], ℕ, List, OnOk, length};
ghost use Rattle.acs_coverage.specs.Counts.{AreCounts, tally_at};
ghost use Rattle.acs_coverage.specs.Inner.Counting.{place_in, tally_if};
ghost use Rattle.acs_trace.specs.declared.event.Event.{Event as EventOf};

use crate::tally::Tally;
use acs_trace::Event;
use std::alloc::{AllocError, Global};
use std::marker::Model;

/// How often something happened at each token of a routine.
#[derive(Drop)]
pub struct Tallies {
    items: Vec<Tally>,
}

impl Model for Tallies {
    ghost use Rattle.acs_coverage.specs.declared.tally.Tally.{Tally};
    ghost use Rattle.std.specs.Prelude.{List};

    ghost Value = { List Tally };

    ghost view = { λ tallies. tallies.items.items };
}

impl Tallies {
    /// Nothing happened.
    pub fn new(alloc: Global) -> Self
        ensures { result ≡ [] }
    {
        Tallies {
            items: Vec::new(alloc),
        }
    }

    /// Counts what happened further.
    pub fn count_events(&mut self, events: &[Event]) -> Result<(), AllocError>
        ensures { OnOk result ((before : List EventOf) → AreCounts before self.old →
            AreCounts (before ++ events.now) self.new) }
    {
        for event in events {
            self.count(event)?;
        }
        Ok(())
    }

    fn count(&mut self, event: &Event) -> Result<(), AllocError>
        ensures { OnOk result ((before : List EventOf) → AreCounts before self.old →
            AreCounts (before ++ event.now ∷ []) self.new) }
    {
        match place_in(event) {
            Some(place) => self.count_at(place, event),
            None => Ok(()),
        }
    }

    // Counts an event at its token.
    fn count_at(&mut self, place: u32, event: &Event) -> Result<(), AllocError>
        ensures { OnOk result ((at : ℕ) →
            tally_at self.new at ≡ tally_if (tally_at self.old at) event.now place at) }
    {
        self.make_room(place)?;
        let tally = self.items[place as usize];
        self.items[place as usize] = tally.with(event);
        Ok(())
    }

    fn make_room(&mut self, place: u32) -> Result<(), AllocError>
        ensures same { OnOk result ((at : ℕ) → tally_at self.new at ≡ tally_at self.old at) }
        ensures room { OnOk result (place < length self.new) }
    {
        let needed = place as usize + 1;
        if needed > self.items.len() {
            self.items.resize(needed, Tally::none())?;
        }
        Ok(())
    }

    /// How often something happened at the token.
    pub fn at(&self, place: u32) -> Tally
        ensures { result ≡ tally_at self.now place }
    {
        match self.items.get(place as usize) {
            Some(tally) => *tally,
            None => Tally::none(),
        }
    }
}

// The token at which an event is counted.
fn place_in(event: &Event) -> Option<u32>
    ensures { result ≡ place_in event.now }
{
    match event {
        Event::Ran(at) | Event::Taken(at) => Some(*at),
        Event::Compared { right, .. } => Some(*right),
        Event::Set { .. } | Event::Wrote(_) | Event::Exited(_) => None,
    }
}
