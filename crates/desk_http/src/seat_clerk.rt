//! A clerk over a seat of a desk.
ghost use Rattle.std.specs.Prelude.{◌≡◌, ◌<◌, ◌++◌, ◌∷◌, [], List, OnErr, OnOk, length};
ghost use Rattle.http_talk.specs.declared.talk.Talk.{Talk as TalkOf};
ghost use Rattle.sms_desk.specs.Seats.{IsJobOf};
ghost use Rattle.desk_http.specs.SeatTalks.{HasSubmitted, SeatView, view_of};

use desk_common::Items;
use http_talk::{Clerk, Talk, Talks};
use sms_construct::{Answer, Request};
use sms_desk::{Desk, Gate, JobSeat};
use sms_keeper::Keeper;
use std::alloc::{AllocError, Global};
use std::marker::Model;
use std::snapshot::Snapshot;
use std::sync::Wait;

/// Answers requests by a desk that workers share, each in a turn of the seat.
#[derive(Drop)]
pub struct SeatClerk<'a, P: Keeper, R, G> {
    rt: &'a R,
    desk: &'a Desk<P>,
    gate: &'a G,
    start: Snapshot<JobSeat<P>>,
    seat: JobSeat<P>,
    talks: Vec<Talk>,
}

impl<'a, P: Keeper, R, G> Model for SeatClerk<'a, P, R, G> {
    ghost use Rattle.acs_tree.specs.contracts.routine.Form as form;
    ghost use Rattle.std.specs.Coded.{codes};
    ghost use Rattle.sms_desk.specs.Seats.{IsJobOf};
    ghost use Rattle.desk_http.specs.SeatTalks.{HasSubmitted, SeatClerkView, view_of};

    ghost Value = { SeatClerkView };

    ghost coded = { Prim.hlevel (codes, form.the_row.coded) };

    ghost view = { λ c. record {
      start = view_of c.desk.now.lock.table.shared.table_id c.start.value;
      seat = view_of c.desk.now.lock.table.shared.table_id c.seat;
      talks = c.talks.items;
    } };

    ghost invariant = { λ c. IsJobOf c.desk.now.lock.table.shared.table_id c.seat
        × HasSubmitted
        (view_of c.desk.now.lock.table.shared.table_id c.start.value)
        (view_of c.desk.now.lock.table.shared.table_id c.seat)
        c.talks.items };
}

impl<'a, P: Keeper, R, G> SeatClerk<'a, P, R, G> {
    /// A clerk that works on the desk by the seat, with no requests so far. It takes no memory.
    pub fn new(alloc: Global, rt: &'a R, desk: &'a Desk<P>, seat: JobSeat<P>, gate: &'a G) -> Self
        requires { IsJobOf desk.now.lock.table.shared.table_id seat }
        ensures start { result.start ≡ view_of desk.now.lock.table.shared.table_id seat }
        ensures seat { result.seat ≡ result.start }
        ensures talks { result.talks ≡ [] }
    {
        SeatClerk {
            rt,
            desk,
            gate,
            start: Snapshot::of(&seat),
            seat,
            talks: Vec::new(alloc),
        }
    }

    /// The runtime, the desk, the seat, the gate, and the requests with their answers.
    pub fn into_parts(self) -> (&'a R, &'a Desk<P>, JobSeat<P>, &'a G, Talks)
        ensures seat { self.entry.seat ≡ view_of result.1.now.lock.table.shared.table_id result.2 }
        ensures talks { result.4 ≡ self.entry.talks }
        ensures job { IsJobOf result.1.now.lock.table.shared.table_id result.2 }
        ensures submitted { HasSubmitted self.entry.start self.entry.seat result.4 }
    {
        let SeatClerk {
            rt,
            desk,
            gate,
            seat,
            talks,
            ..
        } = self;
        (rt, desk, seat, gate, Items::from_vec(talks))
    }
}

impl<'a, P: Keeper, R: Wait, G: Gate> Clerk for SeatClerk<'a, P, R, G> {
    ghost Start = { SeatView };

    ghost talks = { λ c. c.talks };

    ghost start = { λ c. c.start };

    fn handle(&mut self, request: &Request) -> Result<&Answer, AllocError> {
        match hear(self, request) {
            Ok(()) => Ok(last(self)),
            Err(error) => Err(error),
        }
    }
}

// The answer that was stored last.
fn last<'b, P: Keeper, R, G>(clerk: &'b SeatClerk<'_, P, R, G>) -> &'b Answer
    requires { 0 < length clerk.now.talks }
    ensures { (one : TalkOf) (before : List TalkOf) → clerk.now.talks ≡ before ++ one ∷ [] → result.now ≡ one.answer }
{
    &clerk.talks[clerk.talks.len() - 1].answer
}

// Answers the request in a turn, and stores it with its answer.
fn hear<P: Keeper, R: Wait, G: Gate>(
    clerk: &mut SeatClerk<'_, P, R, G>,
    request: &Request,
) -> Result<(), AllocError>
    ensures ok { OnOk result ((one : TalkOf) × (clerk.new.talks ≡ clerk.old.talks ++ one ∷ []) ×
        (one.request ≡ request.now)) }
    ensures err { OnErr result (clerk.new.talks ≡ clerk.old.talks) }
    ensures start { clerk.new.start ≡ clerk.old.start }
{
    let request = request.copy()?;
    clerk.talks.reserve(1)?;
    let answer = clerk
        .desk
        .submit(clerk.rt, &mut clerk.seat, &request, clerk.gate);
    clerk.talks.push_reserved(Talk { request, answer });
    Ok(())
}
