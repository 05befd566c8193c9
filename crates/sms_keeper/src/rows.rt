//! The tables.
use crate::deck_row::DeckRows;
use crate::floor::Floors;
use crate::kept_row::KeptRows;
use crate::status_row::Statuses;
use desk_common::{Items, Shared};
use sms_construct::DataSet;

/// The catalogued data sets.
pub type SetRows = Items<Shared<DataSet>>;

/// All that is recorded of a desk (docs/manual/records.md).
#[derive(Drop)]
pub struct Rows {
    pub sets: SetRows,
    pub replies: KeptRows,
    pub decks: DeckRows,
    pub statuses: Statuses,
    pub floors: Floors,
}
