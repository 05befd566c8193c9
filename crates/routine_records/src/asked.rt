//! What is asked by the items of a script.
ghost use Rattle.std.specs.Prelude.{◌∷◌, map};
ghost use Rattle.routine_records.specs.Asked.{IsAsked};

use sms_construct::{DeckText, Op};
use sms_script::Item;
use sms_simulation::first_other;

/// A deck that is to be activated, and the ALLOCs behind it.
#[derive(Clone, Copy)]
pub struct AskedDeck<'a> {
    pub deck: &'a DeckText,
    pub others: &'a [&'a Item],
}

/// What is asked by the items of a script: nothing where there is none, else to activate a deck, and the ALLOCs behind
/// it; or the line of the first item that isn't the one asked there.
pub fn asked_by<'a>(items: &'a [&'a Item]) -> Result<Option<AskedDeck<'a>>, u32>
    ensures { IsAsked (map (λ item. item.now) items.entry.now) result }
{
    match items {
        [] => Ok(None),
        [first, others @ ..] => asked_from(first, others),
    }
}

// What an item and those behind it ask.
#[tactic(auto, using(crate::proofs::AskedLemmas::asked_under, crate::proofs::AskedLemmas::misplaced_behind))]
fn asked_from<'a>(first: &'a Item, others: &'a [&'a Item]) -> Result<Option<AskedDeck<'a>>, u32>
    ensures { IsAsked (first.entry.now ∷ map (λ item. item.now) others.entry.now) result }
{
    let Op::Activate(deck) = &first.request.op else {
        return Err(first.line);
    };
    match first_other(others) {
        Some(line) => Err(line),
        None => Ok(Some(AskedDeck { deck, others })),
    }
}
