// What is read before a turn.
ghost use Rattle.std.specs.Prelude.{◌≡◌, Ok, Some, IfOk};
ghost use Rattle.desk_state.specs.Working.{IsReadAs};
ghost use Rattle.sms_desk.specs.Holding.{IsOwnOf};

use deck_meaning::{Config, DeckErr, one_reading};
use desk_common::Shared;
use sms_construct::DeckText;
use sms_deck::read_deck;
use std::alloc::{AllocError, Global};

/// What was read of a deck, for its step, and for the seat the configuration, if it has one.
#[derive(Drop)]
pub struct ReadAhead {
    pub read: Result<Shared<Config>, DeckErr>,
    pub own: Option<Shared<Config>>,
}

/// Reads a deck, or finds memory wanting.
pub fn read_ahead(alloc: Global, deck: &DeckText) -> Result<ReadAhead, AllocError>
    ensures read { IfOk result (λ ahead. IsReadAs deck.now ahead.read) }
    ensures own { IfOk result (λ ahead. IsOwnOf deck.now ahead.own) }
{
    // A fact for the proof; nothing runs.
    one_reading();
    match read_deck(alloc, deck) {
        Ok(config) => share_read(alloc, config),
        Err(DeckErr::NoMemory) => Err(AllocError),
        Err(DeckErr::Fault(fault)) => Ok(ReadAhead {
            read: Err(DeckErr::Fault(fault)),
            own: None,
        }),
    }
}

// The configuration for the step and for the seat.
fn share_read(alloc: Global, config: Config) -> Result<ReadAhead, AllocError>
    ensures read { IfOk result (λ ahead. ahead.read ≡ Ok config) }
    ensures own { IfOk result (λ ahead. ahead.own ≡ Some config) }
{
    let config = Shared::new(alloc, config)?;
    let own = config.share()?;
    Ok(ReadAhead {
        read: Ok(config),
        own: Some(own),
    })
}
