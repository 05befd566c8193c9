//! All seats of a desk.
ghost use Rattle.std.specs.Prelude.{◌≡◌, ◌≤◌, [], vec_capacity, vec_len};

use crate::job_seat::JobSeat;
use crate::signed_core::SignedCore;
use desk_common::Items;
use desk_signing::Event;
use sms_keeper::Keeper;
use turn_lock::Seats;

/// The workers' seats, with room for the lock's own seats at the end.
#[derive(Drop)]
pub struct JobSeats<P: Keeper> {
    pub jobs: Vec<JobSeat<P>>,
    pub room: Seats<SignedCore<P>, Event>,
    ghost roomy: { (room.items ≡ []) × (vec_len room ≡ 0) × (vec_len jobs ≤ vec_capacity room) },
}

/// The numbers of the seats of the entries that were made since a desk opened, in journal order.
pub type SeatNumbers = Items<u32>;
