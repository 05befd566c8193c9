//! Keepers of the desk's records, and the log of the replies that are kept.
#![tactic(auto)]

mod change;
mod deck_row;
mod effect;
mod fault_keeper;
mod floor;
mod keeper;
mod kept;
mod kept_row;
mod load_err;
mod mem_keeper;
mod packed_change;
mod replay;
mod replaying;
mod request_key;
mod request_log;
mod rows;
mod sorting;
mod status_row;
mod stored;
mod table;

pub use change::Change;
pub use deck_row::{DeckRow, DeckRows};
pub use effect::Effect;
pub use fault_keeper::FaultKeeper;
pub use floor::{Floor, Floors};
pub use keeper::{Keeper, KeeperErr};
pub use kept::{Kept, KeptReply};
pub use kept_row::{KeptRow, KeptRows};
pub use load_err::LoadErr;
pub use mem_keeper::MemKeeper;
pub use request_key::RequestKey;
pub use request_log::RequestLog;
pub use rows::{Rows, SetRows};
pub use status_row::{StatusRow, Statuses};
pub use stored::Stored;
pub use table::Table;
