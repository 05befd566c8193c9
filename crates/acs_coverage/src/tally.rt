//! How often something happened at a token.
ghost use Rattle.std.specs.Prelude.{◌≡◌};
ghost use Rattle.acs_coverage.specs.Counts.{no_tally};
ghost use Rattle.acs_coverage.specs.Inner.Counting.{tally_with};

use acs_trace::Event;

/// How often the statement at a token was begun, how often the WHEN there was taken, and how often the comparison there
/// held and didn't; each as far as 64 bits count.
#[derive(Clone, Copy, Debug, PartialEq, Eq)]
pub struct Tally {
    pub ran: u64,
    pub taken: u64,
    pub held: u64,
    pub failed: u64,
}

impl Tally {
    /// Nothing happened.
    pub fn none() -> Self
        ensures { result ≡ no_tally }
    {
        Tally {
            ran: 0,
            taken: 0,
            held: 0,
            failed: 0,
        }
    }

    /// The same with one event more.
    pub(crate) fn with(self, event: &Event) -> Self
        ensures { result ≡ tally_with self event.now }
    {
        let mut tally = self;
        match event {
            Event::Ran(_) => tally.ran = self.ran.saturating_add(1),
            Event::Taken(_) => tally.taken = self.taken.saturating_add(1),
            Event::Compared { holds, .. } => {
                if *holds {
                    tally.held = self.held.saturating_add(1);
                } else {
                    tally.failed = self.failed.saturating_add(1);
                }
            }
            Event::Set { .. } | Event::Wrote(_) | Event::Exited(_) => (),
        }
        tally
    }
}
