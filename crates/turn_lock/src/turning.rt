//! How a seat comes to its turn.
ghost use Rattle.std.specs.Prelude.{◌≡◌, ℕ, ◌+◌, ◌-◌, ◌%◌, ◌<◌, [], Some, None, IfSome, IfNone};
ghost use Rattle.turn_lock.specs.Steps.{IsWaiting, HasTaken};

use crate::journaled::Journaled;
use crate::lock::TurnLock;
use crate::seat::{Held, Seat};
use crate::steps::{Draw, Look};
use std::sync::Wait;

// How often a seat looks before it may sleep: short turns come sooner than a sleeper wakes.
const LOOKS: u32 = 64;

impl<T: Journaled<E> + Drop, E> TurnLock<T, E> {
    pub(crate) fn draw(&self, seat: Seat<T, E>) -> (u64, Held<T, E>)
        requires { seat.held.table_id ≡ self.now.table.shared.table_id }
        ensures same { result.1.table_id ≡ self.now.table.shared.table_id }
        ensures drew { (k : ℕ) × (result.1.me ≡ (record seat.held.me.0 { ticket = Some k }, [])) ×
            (k % 18446744073709551616 ≡ result.0) }
    {
        let Seat {
            number: _,
            mut held,
        } = seat;
        let ticket = self.table.shared.fetch_add::<Draw>(&mut held, 0, 1);
        (ticket, held)
    }

    // One look: the value, where the ticket is served.
    pub(crate) fn look(&self, held: &mut Held<T, E>, ticket: u64) -> Option<T>
        requires lock { held.old.table_id ≡ self.now.table.shared.table_id }
        requires waits { IsWaiting held.old.me ticket }
        ensures same { held.new.table_id ≡ held.old.table_id }
        ensures none { IfNone result (held.new.me ≡ held.old.me) }
        ensures some { IfSome result (λ y. HasTaken T.journal held.old.me held.new.me y) }
    {
        let serving = self.table.shared.load::<Look<T, E>>(held, 1);
        if serving != ticket {
            return None;
        }
        self.table.shared.exchange(held, 0, None)
    }

    // Lets others run: whoever is next, or has looked a few times only, soon looks again; the others sleep until a
    // ticket is served.
    pub(crate) fn rest<R: Wait>(&self, rt: &R, ticket: u64, looks: u32) {
        let serving = self.table.shared.peek(1);
        if looks < LOOKS || serving.wrapping_add(1) == ticket || serving == ticket {
            std::thread::yield_now();
        } else {
            let shown = (serving % 4_294_967_296) as u32;
            self.table.shared.park(rt, 1, shown);
        }
    }
}
