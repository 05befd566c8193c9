//! How a request is submitted.
ghost use Rattle.std.specs.Prelude.{◌≡◌};
ghost use Rattle.sms_desk.specs.Showing.{IsAlloc};
ghost use Rattle.sms_desk.specs.Seats.{HoldsOf, IsJobOf, Submitted, job_seen};

use crate::classifying::classified;
use crate::desk::Desk;
use crate::gate::Gate;
use crate::held::Held;
use crate::job_seat::JobSeat;
use crate::reading::{ReadAhead, read_ahead};
use crate::signing::no_memory;
use sms_construct::{Answer, DeckText, Op, Request};
use sms_core::Work;
use sms_keeper::Keeper;
use std::sync::Wait;

impl<P: Keeper> Desk<P> {
    /// Answers a request in a turn of the seat (docs/manual/workers.md, "Submitting"). An ALLOC is classified before it
    /// under the configuration that the seat holds, and the deck of an ACTIVATE is read before it. The gate is shown
    /// each classification, and told when there is an answer.
    pub fn submit<R: Wait, G: Gate>(
        &self,
        rt: &R,
        seat: &mut JobSeat<P>,
        request: &Request,
        gate: &G,
    ) -> Answer
        requires { IsJobOf self.now.lock.table.shared.table_id seat.old }
        ensures { Submitted self.now.lock.table.shared.table_id seat.old seat.new request.now result }
    {
        let answer = match &request.op {
            Op::Alloc(_) => self.submit_alloc(rt, seat, request, gate),
            Op::Activate(deck) => self.submit_deck(rt, seat, request, deck),
            Op::Extend(_)
            | Op::Delete(_)
            | Op::Used { .. }
            | Op::Release(_)
            | Op::Display(_)
            | Op::Vary { .. }
            | Op::Purge { .. } => self.submit_with(rt, seat, request, Work::Nothing, None),
        };
        gate.after(rt, &request.job, request.number.get());
        answer
    }

    // Answers an ALLOC: it is classified before the turn, and once more where another configuration is active there.
    fn submit_alloc<R: Wait, G: Gate>(
        &self,
        rt: &R,
        seat: &mut JobSeat<P>,
        request: &Request,
        gate: &G,
    ) -> Answer
        requires seat { IsJobOf self.now.lock.table.shared.table_id seat.old }
        requires alloc { IsAlloc request.now }
        ensures { Submitted self.now.lock.table.shared.table_id seat.old seat.new request.now result }
    {
        if seat.held.is_none() {
            return self.submit_with(rt, seat, request, Work::Nothing, None);
        }
        let work = classified(rt, request, &seat.held, &mut seat.slate, gate, 1);
        match self.try_turn(rt, seat, request, work) {
            Ok(answer) => answer,
            Err(fresh) => self.submit_again(rt, seat, request, fresh, gate),
        }
    }

    // Answers an ALLOC after a turn in which this was active, or memory was wanting.
    fn submit_again<R: Wait, G: Gate>(
        &self,
        rt: &R,
        seat: &mut JobSeat<P>,
        request: &Request,
        fresh: Option<Held>,
        gate: &G,
    ) -> Answer
        requires seat { IsJobOf self.now.lock.table.shared.table_id seat.old }
        requires alloc { IsAlloc request.now }
        requires fresh { HoldsOf (job_seen seat.old) fresh }
        ensures { Submitted self.now.lock.table.shared.table_id seat.old seat.new request.now result }
    {
        let work = classified(rt, request, &fresh, &mut seat.slate, gate, 2);
        self.submit_with(rt, seat, request, work, None)
    }

    // Answers an ACTIVATE: its deck is read before the turn.
    fn submit_deck<R: Wait>(
        &self,
        rt: &R,
        seat: &mut JobSeat<P>,
        request: &Request,
        deck: &DeckText,
    ) -> Answer
        requires seat { IsJobOf self.now.lock.table.shared.table_id seat.old }
        requires deck { request.now.op ≡ Op.Activate deck.now }
        ensures { Submitted self.now.lock.table.shared.table_id seat.old seat.new request.now result }
    {
        match read_ahead(self.alloc, deck) {
            Ok(ReadAhead { read, own }) => {
                self.submit_with(rt, seat, request, Work::Deck(read), own)
            }
            Err(_) => no_memory(),
        }
    }
}
