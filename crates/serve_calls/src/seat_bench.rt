//! A bench over a seat of a desk.
ghost use Rattle.std.specs.Prelude.{◌≡◌};
ghost use Rattle.sms_desk.specs.Seats.{IsJobOf};
ghost use Rattle.desk_http.specs.SeatTalks.{HasSubmitted, view_of};
ghost use Rattle.desk_http.proofs.SeatLaws.{HasSubmitted-nil, HasSubmitted-join};

use desk_http::SeatClerk;
use http_talk::Talks;
use serve_door::Bench;
use sms_desk::{Desk, Gate, JobSeat};
use sms_keeper::Keeper;
use std::alloc::Global;
use std::marker::Model;
use std::sync::Wait;

/// Lets one clerk after the other answer by a seat of a desk that workers share.
#[derive(Drop)]
pub struct SeatBench<'a, P: Keeper, R, G> {
    rt: &'a R,
    desk: &'a Desk<P>,
    gate: &'a G,
    seat: JobSeat<P>,
}

impl<'a, P: Keeper, R, G> Model for SeatBench<'a, P, R, G> {
    ghost use Rattle.acs_tree.specs.contracts.routine.Form as form;
    ghost use Rattle.std.specs.Coded.{codes};
    ghost use Rattle.sms_desk.specs.Seats.{IsJobOf};
    ghost use Rattle.desk_http.specs.SeatTalks.{SeatView, view_of};

    ghost Value = { SeatView };

    ghost coded = { Prim.hlevel (codes, form.the_row.coded) };

    ghost view = { λ b. view_of b.desk.now.lock.table.shared.table_id b.seat };

    ghost invariant = { λ b. IsJobOf b.desk.now.lock.table.shared.table_id b.seat };
}

impl<'a, P: Keeper, R, G> SeatBench<'a, P, R, G> {
    /// A bench over the seat.
    pub fn new(rt: &'a R, desk: &'a Desk<P>, seat: JobSeat<P>, gate: &'a G) -> Self
        requires { IsJobOf desk.now.lock.table.shared.table_id seat }
        ensures { result ≡ view_of desk.now.lock.table.shared.table_id seat }
    {
        SeatBench {
            rt,
            desk,
            gate,
            seat,
        }
    }

    /// The seat.
    pub fn into_seat(self) -> JobSeat<P>
        ensures seat { self.entry ≡ view_of self.entry.lock result }
        ensures job { IsJobOf self.entry.lock result }
    {
        let SeatBench { seat, .. } = self;
        seat
    }
}

impl<'a, P: Keeper, R: Wait, G: Gate> Bench for SeatBench<'a, P, R, G> {
    type Sitting = SeatClerk<'a, P, R, G>;

    ghost follows = { λ first talks last. HasSubmitted first last talks };

    ghost sat_at = { λ clerk. clerk.start };

    fn seat(self, alloc: Global) -> SeatClerk<'a, P, R, G> {
        let SeatBench {
            rt,
            desk,
            gate,
            seat,
        } = self;
        SeatClerk::new(alloc, rt, desk, seat, gate)
    }

    fn back(clerk: SeatClerk<'a, P, R, G>) -> (Self, Talks) {
        let (rt, desk, seat, gate, talks) = clerk.into_parts();
        (
            SeatBench {
                rt,
                desk,
                gate,
                seat,
            },
            talks,
        )
    }

    ghost by_start = { λ one other same. same };

    ghost stays = { HasSubmitted-nil };

    ghost joins = { HasSubmitted-join };
}
