//! A desk that workers share: each request is answered in a turn, and classified before it.
#![tactic(auto)]

mod classifying;
mod closing;
mod desk;
mod gate;
mod held;
mod holding;
mod job_seat;
mod job_seats;
mod laws;
mod opening;
mod outfit;
mod reading;
mod seating;
mod signed_core;
mod signing;
mod submitting;
mod turning;

pub use desk::Desk;
pub use desk_signing::Event;
pub use gate::{FreeGate, Gate};
pub use held::Held;
pub use job_seat::JobSeat;
pub use job_seats::{JobSeats, SeatNumbers};
pub use laws::activations_are_held;
pub use signed_core::SignedCore;
