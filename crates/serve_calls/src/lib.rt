//! The top call of the served desk.
#![tactic(auto)]

mod alone;
mod connections;
mod core_bench;
mod manning;
mod seat_bench;
mod serve;
mod served_doors;
mod sharing;
mod status;
mod worker;
mod working;

pub use connections::served_text;
pub use core_bench::CoreBench;
pub use seat_bench::SeatBench;
pub use serve::serve_main;
pub use served_doors::{DoorVisits, ServedDoors};
pub use status::ServeStatus;
pub use worker::Worker;
