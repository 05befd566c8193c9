//! The top calls over a lasting store.
#![tactic(auto)]

mod checking;
mod due_list;
mod listing;
mod loading;
mod managing;
mod nowhere;
mod numbers;
mod opening;
mod running;
mod status;
mod writing;

pub use checking::store_check;
pub use due_list::store_due;
pub use listing::store_list;
pub use managing::store_manage;
pub use opening::open_store;
pub use running::store_run;
pub use status::StoreStatus;
