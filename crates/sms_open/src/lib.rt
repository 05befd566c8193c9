//! A desk that goes on from what its keeper has, or why there is none: whether it may go on from rows that were found.
#![tactic(auto)]

mod apart;
mod decks;
mod doubles;
mod laws;
mod meeting;
mod numbers;
mod open_err;
mod reopening;
mod replies;
mod rows_err;
mod sets;
mod statuses;
mod testing;

pub use laws::{
    left_tables_are_own, new_desks_are_sound, opened_desks_are_sound, own_tables_pass,
    placed_desks_are_sound, same_tables_are_own,
};
pub use open_err::OpenErr;
pub use reopening::{reopen, reopen_behind};
pub use rows_err::RowsErr;
pub use testing::test_rows;
