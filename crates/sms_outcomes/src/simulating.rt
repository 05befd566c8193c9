//! The simulation of a script as records.
ghost use Rattle.std.specs.Prelude.{◌≡◌, ◌++◌, ◌∷◌, [], flat_map, map, IfOk, OnOk};
ghost use Rattle.sms_script.specs.Script.{items_of};
ghost use Rattle.desk_law.specs.Classification.{classes_of};
ghost use Rattle.sms_outcomes.specs.ItemRecords.{front_in, item_record, record_in};
ghost use Rattle.sms_outcomes.specs.SimulatedRecords.{IsRecorded, IsRecordedUnder};

use crate::item_record::{front_text, push_record};
use acs_tree::Slate;
use deck_meaning::{Config, DeckErr};
use desk_common::Items;
use flat_records::RecordForm;
use sms_classes::classify;
use sms_construct::{Alloc, DeckText, Op};
use sms_deck::read_deck;
use sms_script::{Item, Script};
use sms_simulation::{Simulated, all_items, first_other};
use std::alloc::{AllocError, Global};

/// What the routines of the deck that the script's first item activates give each of the allocations behind it, as
/// records in this form (docs/manual/tool.md, "Simulating a script"). Nothing is allocated.
pub fn simulate_records(
    alloc: Global,
    form: RecordForm,
    script: &Script,
) -> Result<Simulated, AllocError>
    ensures { IfOk result (IsRecorded form (items_of script.now)) }
{
    let items = all_items(alloc, script.as_slice())?;
    record_items(alloc, form, &items)
}

fn record_items(alloc: Global, form: RecordForm, items: &[&Item]) -> Result<Simulated, AllocError>
    ensures { IfOk result (IsRecorded form (map (λ item. item.now) items.now)) }
{
    match items {
        [] => record_nothing(alloc, form),
        [first, others @ ..] => record_from(alloc, form, first, others),
    }
}

// The records of no item.
fn record_nothing(alloc: Global, form: RecordForm) -> Result<Simulated, AllocError>
    ensures { IfOk result (IsRecorded form []) }
{
    let text = front_text(alloc, form)?;
    Ok(Simulated::Shown(Items::from_vec(text)))
}

// The records of an item and those behind it.
#[tactic(auto, using(crate::proofs::RecordLemmas::recorded_under, crate::proofs::RecordLemmas::misplaced_behind))]
fn record_from(
    alloc: Global,
    form: RecordForm,
    first: &Item,
    others: &[&Item],
) -> Result<Simulated, AllocError>
    ensures { IfOk result (IsRecorded form (first.now ∷ map (λ item. item.now) others.now)) }
{
    let Op::Activate(deck) = &first.request.op else {
        return Ok(Simulated::Misplaced(first.line));
    };
    if let Some(line) = first_other(others) {
        return Ok(Simulated::Misplaced(line));
    }
    record_under(alloc, form, deck, others)
}

// The records of an item that activates this deck and of ALLOCs behind it.
fn record_under(
    alloc: Global,
    form: RecordForm,
    deck: &DeckText,
    others: &[&Item],
) -> Result<Simulated, AllocError>
    ensures { IfOk result (IsRecordedUnder form deck.now (map (λ item. item.now) others.now)) }
{
    match read_deck(alloc, deck) {
        Ok(config) => {
            let text = text_of(alloc, form, &config, others)?;
            Ok(Simulated::Shown(Items::from_vec(text)))
        }
        Err(DeckErr::Fault(fault)) => Ok(Simulated::Refused(fault)),
        Err(DeckErr::NoMemory) => Err(AllocError),
    }
}

// What stands before the records, and the records of the items.
fn text_of(
    alloc: Global,
    form: RecordForm,
    config: &Config,
    items: &[&Item],
) -> Result<Vec<u8>, AllocError>
    ensures { IfOk result (λ text. text.items ≡ front_in form ++
        flat_map (item_record form config.now) (map (λ item. item.now) items.now)) }
{
    let mut text = front_text(alloc, form)?;
    let mut slate = Slate::new(alloc)?;
    for item in items {
        push_item(alloc, &mut text, form, config, item, &mut slate)?;
    }
    Ok(text)
}

fn push_item(
    alloc: Global,
    text: &mut Vec<u8>,
    form: RecordForm,
    config: &Config,
    item: &Item,
    slate: &mut Slate,
) -> Result<(), AllocError>
    ensures { OnOk result (text.new.items ≡ text.old.items ++ item_record form config.now item.now) }
{
    match &item.request.op {
        Op::Alloc(allocation) => {
            push_alloc(alloc, text, form, config, item, allocation.get(), slate)
        }
        _ => Ok(()),
    }
}

// The record of the ALLOC of an item.
fn push_alloc(
    alloc: Global,
    text: &mut Vec<u8>,
    form: RecordForm,
    config: &Config,
    item: &Item,
    allocation: &Alloc,
    slate: &mut Slate,
) -> Result<(), AllocError>
    ensures { OnOk result (text.new.items ≡ text.old.items ++ record_in form item.now
        (classes_of config.now item.now.request.job allocation.now)) }
{
    let made = classify(config, &item.request.job, allocation, slate);
    push_record(alloc, text, form, item, &made, slate)?;
    Ok(())
}
