//! Why tables aren't loaded.
use crate::table::Table;
use thiserror::Error;

/// Why a keeper doesn't load its tables.
#[derive(Debug, Error, PartialEq, Eq, Clone, Copy)]
pub enum LoadErr {
    /// The outside of the keeper failed.
    #[error("the keeper failed")]
    Failed,
    /// This row of the table is the record of nothing: its number in the order of the keys, from 0.
    #[error("row {1} of the table {0:?} is damaged")]
    Damaged(Table, u64),
    /// Memory was wanting.
    #[error("out of memory")]
    NoMemory,
}
