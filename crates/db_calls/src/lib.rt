//! The top call of the desk over a stored keeper.
#![tactic(auto)]

mod database;
mod status;
mod words;

pub use database::db_main;
pub use status::DbStatus;
pub use words::database_asked;
