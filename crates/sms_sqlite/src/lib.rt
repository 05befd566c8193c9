//! A keeper of the desk's records over a database: each commit is one transaction.
#![tactic(auto)]

mod columns;
mod effects;
mod load_fault;
mod loading;
mod numbers;
mod replies;
mod shown_rows;
mod sql_keeper;
mod statuses;
mod table_row;
mod table_rows;
mod writing;

pub use sql_keeper::SqlKeeper;
