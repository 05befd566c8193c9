//! The explanation of a script as records.
ghost use Rattle.std.specs.Prelude.{◌≡◌, ◌++◌, [], filter, flat_map, map, IfOk, OnOk};
ghost use Rattle.acs_tree.specs.Variables.{name_of};
ghost use Rattle.sms_script.specs.Script.{items_of};
ghost use Rattle.deck_meaning.specs.Reading.{Configures};
ghost use Rattle.desk_law.specs.Classification.{classes_of};
ghost use Rattle.flat_records.specs.declared.field.FieldValue.{FieldValue as Value};
ghost use Rattle.sms_explain.specs.Picking.{is_picked};
ghost use Rattle.sms_story.specs.Runs.{runs_of};
ghost use Rattle.routine_records.specs.EventRecords.{alloc_records, event_record, front_in, item_records, run_in};
ghost use Rattle.routine_records.specs.EventRecords.{outcome_record, run_records, told_record};
ghost use Rattle.routine_records.specs.ExplainedRecords.{IsExplanationRecorded};
ghost use Rattle.routine_records.specs.Inner.Under.{IsExplanationUnder};

use crate::asked::asked_by;
use crate::happening::Happening;
use crate::told::Told;
use crate::told_events::{text_value, told_event, told_outcome, told_values};
use crate::told_fields::{NAMES, told_fields};
use acs_telling::Source;
use acs_trace::Event;
use acs_tree::Slate;
use deck_meaning::{Config, DeckErr};
use desk_common::Items;
use dsn_mask::Name;
use flat_records::{FieldValue, RecordForm, push_header, push_record};
use sms_classes::Classified;
use sms_construct::{Alloc, DeckText, Op};
use sms_deck::read_deck;
use sms_explain::{DeckSources, picked_items, sources_of};
use sms_script::{Item, Script};
use sms_simulation::{Simulated, all_items};
use sms_story::{Run, tell};
use std::alloc::{AllocError, Global};

/// What the routines of the deck that the script's first item activates do with each of the allocations behind it that
/// are of this job and have this number, where one is asked for: a record in this form for each happening
/// (docs/manual/tool.md, "Explaining a script"). Nothing is allocated.
pub fn explain_records(
    alloc: Global,
    form: RecordForm,
    script: &Script,
    job: &Option<Name>,
    number: Option<u32>,
) -> Result<Simulated, AllocError>
    ensures { IfOk result (IsExplanationRecorded form job.now number (items_of script.now)) }
{
    let items = all_items(alloc, script.as_slice())?;
    explain_items(alloc, form, &items, job, number)
}

#[tactic(auto, using(crate::proofs::ExplainedLemmas::explained_under))]
fn explain_items(
    alloc: Global,
    form: RecordForm,
    items: &[&Item],
    job: &Option<Name>,
    number: Option<u32>,
) -> Result<Simulated, AllocError>
    ensures { IfOk result (IsExplanationRecorded form job.now number (map (λ item. item.now) items.now)) }
{
    match asked_by(items) {
        Ok(None) => {
            let front = front_text(alloc, form)?;
            Ok(Simulated::Shown(Items::from_vec(front)))
        }
        Ok(Some(asked)) => explain_picked(alloc, form, asked.deck, asked.others, job, number),
        Err(line) => Ok(Simulated::Misplaced(line)),
    }
}

// The records where this deck is activated, of those ALLOCs behind it that are asked for.
fn explain_picked(
    alloc: Global,
    form: RecordForm,
    deck: &DeckText,
    others: &[&Item],
    job: &Option<Name>,
    number: Option<u32>,
) -> Result<Simulated, AllocError>
    ensures { IfOk result (IsExplanationUnder form deck.now
        (filter (is_picked job.now number) (map (λ item. item.now) others.now))) }
{
    let picked = picked_items(alloc, others, job, number)?;
    explain_under(alloc, form, deck, &picked)
}

// The records where this deck is activated, of the ALLOCs behind it.
fn explain_under(
    alloc: Global,
    form: RecordForm,
    deck: &DeckText,
    others: &[&Item],
) -> Result<Simulated, AllocError>
    ensures { IfOk result (IsExplanationUnder form deck.now (map (λ item. item.now) others.now)) }
{
    match read_deck(alloc, deck) {
        Ok(config) => explain_by(alloc, form, deck, &config, others),
        Err(DeckErr::Fault(fault)) => Ok(Simulated::Refused(fault)),
        Err(DeckErr::NoMemory) => Err(AllocError),
    }
}

// The same, by what the deck configures.
fn explain_by(
    alloc: Global,
    form: RecordForm,
    deck: &DeckText,
    config: &Config,
    others: &[&Item],
) -> Result<Simulated, AllocError>
    ensures { IfOk result (λ made. Configures deck.now config.now →
        IsExplanationUnder form deck.now (map (λ item. item.now) others.now) made) }
{
    let sources = sources_of(alloc, deck)?;
    let text = text_of(alloc, form, config, &sources, others)?;
    Ok(Simulated::Shown(Items::from_vec(text)))
}

fn front_text(alloc: Global, form: RecordForm) -> Result<Vec<u8>, AllocError>
    ensures { IfOk result (λ text. text.items ≡ front_in form) }
{
    let mut text = Vec::new(alloc);
    push_header(alloc, &mut text, form, &NAMES)?;
    Ok(text)
}

// What stands before the records, and the records of the items.
fn text_of(
    alloc: Global,
    form: RecordForm,
    config: &Config,
    sources: &DeckSources,
    items: &[&Item],
) -> Result<Vec<u8>, AllocError>
    ensures { IfOk result (λ text. text.items ≡ front_in form ++
        flat_map (item_records form config.now sources.now) (map (λ item. item.now) items.now)) }
{
    let mut text = front_text(alloc, form)?;
    let mut slate = Slate::new(alloc)?;
    for item in items {
        push_item(alloc, &mut text, form, config, sources, item, &mut slate)?;
    }
    Ok(text)
}

fn push_item(
    alloc: Global,
    text: &mut Vec<u8>,
    form: RecordForm,
    config: &Config,
    sources: &DeckSources,
    item: &Item,
    slate: &mut Slate,
) -> Result<(), AllocError>
    ensures { OnOk result (text.new.items ≡ text.old.items ++
        item_records form config.now sources.now item.now) }
{
    match &item.request.op {
        Op::Alloc(allocation) => {
            push_alloc(
                alloc,
                text,
                form,
                config,
                sources,
                item,
                allocation.get(),
                slate,
            )
        }
        _ => Ok(()),
    }
}

// The records of the ALLOC of an item.
fn push_alloc(
    alloc: Global,
    text: &mut Vec<u8>,
    form: RecordForm,
    config: &Config,
    sources: &DeckSources,
    item: &Item,
    allocation: &Alloc,
    slate: &mut Slate,
) -> Result<(), AllocError>
    ensures { OnOk result (text.new.items ≡ text.old.items ++
        alloc_records form config.now sources.now item.now allocation.now) }
{
    let story = tell(alloc, config, &item.request.job, allocation, slate)?;
    push_runs(alloc, text, form, sources, item, story.runs.as_slice())?;
    push_outcome(alloc, text, form, item, &story.classified)
}

fn push_runs(
    alloc: Global,
    text: &mut Vec<u8>,
    form: RecordForm,
    sources: &DeckSources,
    item: &Item,
    runs: &[Run],
) -> Result<(), AllocError>
    ensures { OnOk result (text.new.items ≡ text.old.items ++
        flat_map (run_records form sources.now item.now) runs.now) }
{
    for run in runs {
        push_run(alloc, text, form, sources.of_kind(run.kind), item, run)?;
    }
    Ok(())
}

// The run of the routine of this source.
fn push_run(
    alloc: Global,
    text: &mut Vec<u8>,
    form: RecordForm,
    source: &Source,
    item: &Item,
    run: &Run,
) -> Result<(), AllocError>
    ensures { OnOk result (text.new.items ≡ text.old.items ++
        run_in form item.now (Value.Text (name_of run.now.kind)) source.now run.now) }
{
    let name = run.kind.name();
    let begin = told_values(alloc, Happening::Begin, &run.begins)?;
    push_told(alloc, text, form, item, name, begin)?;
    push_events(alloc, text, form, source, item, name, run.events.as_slice())?;
    let end = told_values(alloc, Happening::End, &run.ends)?;
    push_told(alloc, text, form, item, name, end)
}

fn push_events(
    alloc: Global,
    text: &mut Vec<u8>,
    form: RecordForm,
    source: &Source,
    item: &Item,
    name: &[u8],
    events: &[Event],
) -> Result<(), AllocError>
    ensures { OnOk result (text.new.items ≡ text.old.items ++
        flat_map (event_record form item.now (Value.Text name.now) source.now) events.now) }
{
    for event in events {
        let told = told_event(alloc, source, event)?;
        push_told(alloc, text, form, item, name, told)?;
    }
    Ok(())
}

// The record of what is told in the routine of this name.
fn push_told(
    alloc: Global,
    text: &mut Vec<u8>,
    form: RecordForm,
    item: &Item,
    name: &[u8],
    told: Told,
) -> Result<(), AllocError>
    ensures { OnOk result (text.new.items ≡ text.old.items ++
        told_record form item.now (Value.Text name.now) told) }
{
    let routine = text_value(alloc, name)?;
    let fields = told_fields(alloc, item, routine, told)?;
    push_record(alloc, text, form, &fields)
}

// The record of what a classification comes to.
fn push_outcome(
    alloc: Global,
    text: &mut Vec<u8>,
    form: RecordForm,
    item: &Item,
    made: &Classified,
) -> Result<(), AllocError>
    ensures { OnOk result (text.new.items ≡ text.old.items ++
        outcome_record form item.now made.now.stop made.now.values) }
{
    let told = told_outcome(alloc, made.stop, &made.values)?;
    let fields = told_fields(alloc, item, FieldValue::Missing, told)?;
    push_record(alloc, text, form, &fields)
}
