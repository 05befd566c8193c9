//! The row of an activated deck.
use desk_common::Items;
use sms_construct::DeckText;

/// A deck with the number of its activation, counted from 1.
#[derive(Drop)]
pub struct DeckRow {
    pub count: u64,
    pub bytes: DeckText,
}

/// The decks that were activated.
pub type DeckRows = Items<DeckRow>;
