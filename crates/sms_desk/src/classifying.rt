//! Classification before the turn.
ghost use Rattle.std.specs.Prelude.{List};
ghost use Rattle.sms_construct.specs.declared.entry.Entry.{Entry as Entered};
ghost use Rattle.desk_law.specs.State.{Opening};
ghost use Rattle.desk_law.specs.History.{WasActive};
ghost use Rattle.desk_state.specs.Working.{IsWork};
ghost use Rattle.sms_desk.specs.Holding.{IsHolding};
ghost use Rattle.sms_desk.specs.Showing.{IsAlloc};
ghost use Rattle.sms_desk.specs.Seats.{IsClassifiedAt, IsJobOf, SameSeat};

use crate::desk::Desk;
use crate::gate::Gate;
use crate::held::Held;
use crate::job_seat::JobSeat;
use acs_tree::Slate;
use sms_classes::Classified;
use sms_construct::Request;
use sms_core::{Work, classify};
use sms_keeper::Keeper;
use std::sync::Wait;

impl<P: Keeper> Desk<P> {
    /// The classes of an ALLOC under the configuration that the seat holds; the seat's slate has what the routines
    /// wrote. It waits for nobody and takes no memory.
    pub fn classify(&self, seat: &mut JobSeat<P>, request: &Request) -> Option<Classified>
        requires seat { IsJobOf self.now.lock.table.shared.table_id seat.old }
        requires alloc { IsAlloc request.now }
        ensures same { SameSeat seat.old seat.new }
        ensures classes { IsClassifiedAt seat.new request.now result }
    {
        let JobSeat { slate, held, .. } = seat;
        match held {
            Some(held) => Some(classify(held.config.get(), request, slate)),
            None => None,
        }
    }
}

/// The classes of an ALLOC under what is held, as work for its step; they are shown to the gate. Where nothing is held
/// it is no work.
pub fn classified<R: Wait, G: Gate>(
    rt: &R,
    request: &Request,
    held: &Option<Held>,
    slate: &mut Slate,
    gate: &G,
    round: u8,
) -> Work
    requires alloc { IsAlloc request.now }
    ensures work { (o : Opening) (h : List Entered) → IsHolding o h held.now → IsWork o h request.now slate.new result }
{
    match held {
        Some(held) => classified_under(rt, request, held, slate, gate, round),
        None => Work::Nothing,
    }
}

fn classified_under<R: Wait, G: Gate>(
    rt: &R,
    request: &Request,
    held: &Held,
    slate: &mut Slate,
    gate: &G,
    round: u8,
) -> Work
    requires alloc { IsAlloc request.now }
    ensures work { (o : Opening) (h : List Entered) → WasActive o h held.now.count held.now.config →
        IsWork o h request.now slate.new result }
{
    let config = held.config.get();
    let classified = classify(config, request, slate);
    gate.between(rt, request, config, &classified, round);
    Work::Classes {
        under: held.count,
        classified,
    }
}
