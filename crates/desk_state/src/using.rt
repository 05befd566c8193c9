// What is used of the work before a step.
ghost use Rattle.std.specs.Prelude.{◌≡◌, List, ℕ, Result, IfOk, IfSome};
ghost use Rattle.std.specs.Option.{option_copied};
ghost use Rattle.sms_construct.specs.Configuration.{Configuration};
ghost use Rattle.deck_meaning.specs.declared.deck_err.DeckErr.{DeckErr as DeckError};
ghost use Rattle.deck_meaning.specs.Reading.{Configures};
ghost use Rattle.sms_classes.specs.declared.classified.Classified.{Classified as Came};
ghost use Rattle.desk_state.specs.Working.{IsReadAs};

use crate::work::Work;
use deck_meaning::{Config, DeckErr};
use desk_common::Shared;
use sms_classes::Classified;
use sms_construct::DeckText;
use sms_deck::read_deck;
use std::alloc::{AllocError, Global};

/// What was classified under so many activations, if anything was.
pub fn classified_under(work: &Work, activations: u64) -> Option<&Classified>
    ensures { IfSome (option_copied result) (λ (made : Came). work.now ≡ Work.Classes activations made) }
{
    match work {
        Work::Classes { under, classified } if *under == activations => Some(classified),
        Work::Nothing | Work::Classes { .. } | Work::Deck(_) => None,
    }
}

/// What a deck configures, or its first fault, or want of memory: as it was read before, else as it is read now.
pub fn configuration(alloc: Global, deck: &DeckText, work: &Work) -> Result<Shared<Config>, DeckErr>
    requires { (read : Result Configuration DeckError) → work.now ≡ Work.Deck read → IsReadAs deck.now read }
    ensures { IsReadAs deck.now result }
{
    match work {
        Work::Deck(read) => shared(read),
        Work::Nothing | Work::Classes { .. } => read_now(alloc, deck),
    }
}

// The same, with one owner more.
fn shared(read: &Result<Shared<Config>, DeckErr>) -> Result<Shared<Config>, DeckErr>
    ensures { (deck : List ℕ) → IsReadAs deck read.now → IsReadAs deck result }
{
    match read {
        Ok(config) => or_no_memory(config.share()),
        Err(error) => Err(*error),
    }
}

fn read_now(alloc: Global, deck: &DeckText) -> Result<Shared<Config>, DeckErr>
    ensures { IsReadAs deck.now result }
{
    match read_deck(alloc, deck) {
        Ok(config) => or_no_memory(Shared::new(alloc, config)),
        Err(error) => Err(error),
    }
}

fn or_no_memory(made: Result<Shared<Config>, AllocError>) -> Result<Shared<Config>, DeckErr>
    ensures { (deck : List ℕ) → IfOk made (Configures deck) → IsReadAs deck result }
{
    match made {
        Ok(config) => Ok(config),
        Err(_) => Err(DeckErr::NoMemory),
    }
}
