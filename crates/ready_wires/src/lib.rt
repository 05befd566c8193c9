//! Connections whose calls never wait, and who tells when they are ready; both in memory too.
#![tactic(auto)]

mod marks;
mod mem_readiness;
mod mem_wire;
mod readiness;
mod watch;
mod wire;

pub use marks::Marks;
pub use mem_readiness::{Happening, MemReadiness};
pub use mem_wire::{MemWire, Turn};
pub use readiness::{Event, Readiness};
pub use watch::Watch;
pub use wire::Wire;
