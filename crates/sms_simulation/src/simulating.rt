//! The simulation of a script.
ghost use Rattle.std.specs.Prelude.{◌≡◌, ◌++◌, ◌∷◌, [], flat_map, map, IfOk, OnOk};
ghost use Rattle.sms_script.specs.Script.{items_of};
ghost use Rattle.desk_law.specs.Classification.{classes_of};
ghost use Rattle.sms_simulation.specs.OutcomeText.{text_of_classes};
ghost use Rattle.sms_simulation.specs.Simulation.{IsSimulatedUnder, IsSimulation, first_other, item_text};

use crate::items::{all_items, first_other};
use crate::outcome::push_classified;
use crate::simulated::Simulated;
use acs_tree::Slate;
use deck_meaning::{Config, DeckErr};
use desk_common::Items;
use sms_classes::classify;
use sms_construct::{Alloc, DeckText, Op, Trace};
use sms_deck::read_deck;
use sms_script::{Item, Script};
use std::alloc::{AllocError, Global};

/// What the routines of the deck that the script's first item activates give each of the allocations behind it
/// (docs/manual/tool.md, "Simulating a script"). Nothing is allocated.
pub fn simulate(alloc: Global, script: &Script) -> Result<Simulated, AllocError>
    ensures { IfOk result (IsSimulation (items_of script.now)) }
{
    let items = all_items(alloc, script.as_slice())?;
    simulate_items(alloc, &items)
}

fn simulate_items(alloc: Global, items: &[&Item]) -> Result<Simulated, AllocError>
    ensures { IfOk result (IsSimulation (map (λ item. item.now) items.now)) }
{
    match items {
        [] => Ok(Simulated::Shown(Items::new(alloc))),
        [first, others @ ..] => simulate_from(alloc, first, others),
    }
}

// The simulation of an item and those behind it.
#[tactic(auto, using(crate::proofs::SimulationLemmas::simulated_under, crate::proofs::SimulationLemmas::misplaced_behind))]
fn simulate_from(alloc: Global, first: &Item, others: &[&Item]) -> Result<Simulated, AllocError>
    ensures { IfOk result (IsSimulation (first.now ∷ map (λ item. item.now) others.now)) }
{
    let Op::Activate(deck) = &first.request.op else {
        return Ok(Simulated::Misplaced(first.line));
    };
    if let Some(line) = first_other(others) {
        return Ok(Simulated::Misplaced(line));
    }
    simulate_under(alloc, deck, others)
}

// The simulation of an item that activates this deck and of ALLOCs behind it.
fn simulate_under(alloc: Global, deck: &DeckText, others: &[&Item]) -> Result<Simulated, AllocError>
    ensures { IfOk result (IsSimulatedUnder deck.now (map (λ item. item.now) others.now)) }
{
    match read_deck(alloc, deck) {
        Ok(config) => {
            let text = text_of(alloc, &config, others)?;
            Ok(Simulated::Shown(Items::from_vec(text)))
        }
        Err(DeckErr::Fault(fault)) => Ok(Simulated::Refused(fault)),
        Err(DeckErr::NoMemory) => Err(AllocError),
    }
}

// What is printed of the items.
fn text_of(alloc: Global, config: &Config, items: &[&Item]) -> Result<Vec<u8>, AllocError>
    ensures { IfOk result (λ text. text.items ≡ flat_map (item_text config.now) (map (λ item. item.now) items.now)) }
{
    let mut text = Vec::new(alloc);
    let mut slate = Slate::new(alloc)?;
    for item in items {
        push_item(alloc, &mut text, config, item, &mut slate)?;
    }
    Ok(text)
}

fn push_item(
    alloc: Global,
    text: &mut Vec<u8>,
    config: &Config,
    item: &Item,
    slate: &mut Slate,
) -> Result<(), AllocError>
    ensures { OnOk result (text.new.items ≡ text.old.items ++ item_text config.now item.now) }
{
    match &item.request.op {
        Op::Alloc(allocation) => push_alloc(alloc, text, config, item, allocation.get(), slate),
        _ => Ok(()),
    }
}

// What the routines give the ALLOC of an item.
fn push_alloc(
    alloc: Global,
    text: &mut Vec<u8>,
    config: &Config,
    item: &Item,
    allocation: &Alloc,
    slate: &mut Slate,
) -> Result<(), AllocError>
    ensures { OnOk result (text.new.items ≡ text.old.items ++ text_of_classes item.now.line item.now.request.job
        item.now.request.number (classes_of config.now item.now.request.job allocation.now)) }
{
    let classified = classify(config, &item.request.job, allocation, slate);
    let trace = Trace::of(alloc, slate)?;
    push_classified(alloc, text, item.line, &item.request, &classified, &trace)?;
    Ok(())
}
