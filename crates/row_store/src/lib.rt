//! Rows under a prefix of an engine that several desks may reach, written under a guard.
#![tactic(auto)]

mod contents;
mod engine;
mod guard;
mod histories;
mod hold;
mod making;
mod mem_store;
mod passing;
mod row;
mod sending;
mod standing;
mod store;
mod transaction;
mod turn;
mod write;

pub use contents::Contents;
pub use guard::Guard;
pub use histories::{one_desk_at_a_time, rows_stay_in_order};
pub use hold::{Hold, HoldErr};
pub use mem_store::MemStore;
pub use row::{Row, Rows};
pub use standing::Standing;
pub use store::{Outcome, Store, StoreErr};
pub use transaction::{Keys, Transaction};
pub use turn::{Ending, Happening, Turn};
pub use write::{Write, Writes};
