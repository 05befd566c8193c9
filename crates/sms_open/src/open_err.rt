//! Why no desk goes on from a keeper.
use sms_keeper::Table;
use thiserror::Error;

/// Why no desk goes on from what a keeper has (docs/manual/records.md, "Going on").
#[derive(Debug, Error, PartialEq, Eq, Clone, Copy)]
pub enum OpenErr {
    /// The outside of the keeper failed.
    #[error("the keeper failed")]
    Failed,
    /// This row of the table stands for nothing: its number in the order of the keys, from 0.
    #[error("row {1} of the table {0:?} is damaged")]
    Damaged(Table, u64),
    /// The rows don't pass this test, 1 to 6, and pass those before it.
    #[error("the rows are unsound ({0})")]
    Unsound(u8),
    /// Memory was wanting.
    #[error("out of memory")]
    NoMemory,
}
