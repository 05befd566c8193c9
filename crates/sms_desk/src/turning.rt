// A turn of a seat.
ghost use Rattle.std.specs.Prelude.{◌≡◌, MatchResult, None};
ghost use Rattle.turn_lock.specs.Contract.{IsOf, IsTurnOf, mine, seen, taken};
ghost use Rattle.turn_lock.specs.Views.{made_by};
ghost use Rattle.desk_signing.specs.Signing.{IsLegalList};
ghost use Rattle.sms_desk.specs.Holding.{IsOwn};
ghost use Rattle.sms_desk.specs.Signed.{list_of};
ghost use Rattle.sms_desk.specs.Seats.{HasLooked, HoldsOf, IsJobOf, IsWorkFor, Submitted, TookTurn, job_seen};

use crate::desk::Desk;
use crate::held::Held;
use crate::holding::{is_current, refresh, renew};
use crate::job_seat::JobSeat;
use crate::signed_core::SignedCore;
use crate::signing::no_memory;
use acs_tree::Slate;
use deck_meaning::Config;
use desk_common::Shared;
use desk_signing::Event;
use sms_construct::{Answer, Request};
use sms_core::Work;
use sms_keeper::Keeper;
use std::sync::Wait;
use turn_lock::{Seat, Turn};

impl<P: Keeper> Desk<P> {
    // Answers a request in a turn.
    pub(crate) fn submit_with<R: Wait>(
        &self,
        rt: &R,
        seat: &mut JobSeat<P>,
        request: &Request,
        work: Work,
        own: Option<Shared<Config>>,
    ) -> Answer
        requires seat { IsJobOf self.now.lock.table.shared.table_id seat.old }
        requires work { IsWorkFor (job_seen seat.old) request.now seat.old.slate work }
        requires own { IsOwn request.now own }
        ensures { Submitted self.now.lock.table.shared.table_id seat.old seat.new request.now result }
    {
        let JobSeat {
            seat: place,
            slate,
            held,
            answers: _,
        } = seat;
        let Some(free) = place.take() else {
            unreachable!()
        };
        let number = free.number();
        let turn = self.lock.take(rt, free);
        let (back, answer) = self.in_turn(turn, number, request, work, own, slate, held);
        *place = Some(back);
        answer
    }

    // Answers a request in a turn, where the configuration that the seat holds is active there. Else the turn is given
    // back, and what is active there is handed out, or nothing where memory is wanting.
    pub(crate) fn try_turn<R: Wait>(
        &self,
        rt: &R,
        seat: &mut JobSeat<P>,
        request: &Request,
        work: Work,
    ) -> Result<Answer, Option<Held>>
        requires seat { IsJobOf self.now.lock.table.shared.table_id seat.old }
        requires work { IsWorkFor (job_seen seat.old) request.now seat.old.slate work }
        requires own { IsOwn request.now None }
        ensures { MatchResult result
            (λ answer. Submitted self.now.lock.table.shared.table_id seat.old seat.new request.now answer)
            (λ fresh. HasLooked self.now.lock.table.shared.table_id seat.old seat.new ×
            HoldsOf (job_seen seat.new) fresh) }
    {
        let JobSeat {
            seat: place,
            slate,
            held,
            answers: _,
        } = seat;
        let Some(free) = place.take() else {
            unreachable!()
        };
        let number = free.number();
        let turn = self.lock.take(rt, free);
        if is_current(&turn.shown().core, held) {
            let (back, answer) = self.in_turn(turn, number, request, work, None, slate, held);
            *place = Some(back);
            return Ok(answer);
        }
        let (back, fresh) = self.look(turn);
        *place = Some(back);
        Err(fresh)
    }

    // Gives a turn back as it came, with what is active there.
    fn look(&self, turn: Turn<SignedCore<P>, Event>) -> (Seat<SignedCore<P>, Event>, Option<Held>)
        requires lock { IsTurnOf self.now.lock.table.shared.table_id turn }
        requires untouched { taken turn ≡ list_of turn.value }
        ensures same { IsOf self.now.lock.table.shared.table_id result.0 × (result.0.number ≡ turn.number) }
        ensures seen { seen result.0 ≡ list_of turn.value }
        ensures mine { mine result.0 ≡ made_by turn.number (list_of turn.value) }
        ensures legal { IsLegalList (list_of turn.value) }
        ensures fresh { HoldsOf (list_of turn.value) result.1 }
    {
        let mut fresh = None;
        // Where memory is wanting, the next turn finds it so too.
        let _ = refresh(&turn.shown().core, &mut fresh);
        (self.lock.give(turn), fresh)
    }

    // Answers a request in this turn, and gives it back.
    fn in_turn(
        &self,
        mut turn: Turn<SignedCore<P>, Event>,
        number: u32,
        request: &Request,
        work: Work,
        own: Option<Shared<Config>>,
        slate: &mut Slate,
        held: &mut Option<Held>,
    ) -> (Seat<SignedCore<P>, Event>, Answer)
        requires lock { IsTurnOf self.now.lock.table.shared.table_id turn }
        requires number { turn.number ≡ number }
        requires untouched { taken turn ≡ list_of turn.value }
        requires work { IsWorkFor (list_of turn.value) request.now slate.old work }
        requires own { IsOwn request.now own }
        requires held { HoldsOf (list_of turn.value) held.old }
        ensures { TookTurn self.now.lock.table.shared.table_id number (list_of turn.value)
            result.0 held.old held.new request.now result.1 }
    {
        if refresh(&turn.shown().core, held).is_err() {
            return (self.lock.give(turn), no_memory());
        }
        let answer = turn.value().step(number, request, work, slate);
        renew(&turn.shown().core, held, own);
        (self.lock.give(turn), answer)
    }
}
