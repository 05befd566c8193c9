//! What was done for a request before its step.
use deck_meaning::{Config, DeckErr};
use desk_common::Shared;
use sms_classes::Classified;

/// What was done for a request before its step (docs/manual/rules.md, "Work before a step").
#[derive(Drop)]
pub enum Work {
    /// Nothing.
    Nothing,
    /// It was classified under the configuration that was active after so many activations; what the routines wrote
    /// is on the slate.
    Classes { under: u64, classified: Classified },
    /// Its deck was read.
    Deck(Result<Shared<Config>, DeckErr>),
}
