//! Seats of a desk.
ghost use Rattle.std.specs.Prelude.{◌≡◌, IsSome};
ghost use Rattle.sms_desk.specs.Holding.{held_count};

use crate::held::Held;
use crate::signed_core::SignedCore;
use acs_tree::Slate;
use desk_signing::Event;
use sms_construct::Answer;
use sms_keeper::Keeper;
use std::collections::VecDeque;
use turn_lock::Seat;

/// A worker's seat.
#[derive(Drop)]
pub struct JobSeat<P: Keeper> {
    pub(crate) seat: Option<Seat<SignedCore<P>, Event>>,
    pub(crate) slate: Slate,
    pub(crate) held: Option<Held>,
    /// Room for the answers of a worker, which the desk leaves as it is.
    pub answers: VecDeque<Answer>,
    ghost seated: { IsSome seat },
}

impl<P: Keeper> JobSeat<P> {
    /// The number of activations under which the seat holds its configuration; 0 where it holds none.
    pub fn held(&self) -> u64
        ensures { result ≡ held_count self.now.held }
    {
        match &self.held {
            Some(held) => held.count,
            None => 0,
        }
    }

    /// What the routines of the last classification wrote.
    pub fn slate(&self) -> &Slate
        ensures { result.now ≡ self.now.slate }
    {
        &self.slate
    }
}
