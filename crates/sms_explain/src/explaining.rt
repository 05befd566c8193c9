//! The explanation of a script.
ghost use Rattle.std.specs.Prelude.{◌≡◌, ◌++◌, ◌∷◌, filter, flat_map, map, IfOk, OnOk};
ghost use Rattle.sms_script.specs.Script.{items_of};
ghost use Rattle.deck_meaning.specs.Reading.{Configures};
ghost use Rattle.sms_explain.specs.Explanation.{IsExplainedUnder, IsExplanation, end_text, front_text};
ghost use Rattle.sms_explain.specs.Explanation.{head_text, told_of, told_text};
ghost use Rattle.sms_explain.specs.Picking.{is_picked};

use crate::deck_sources::{DeckSources, sources_of};
use crate::picking::picked_items;
use crate::run_text::push_runs;
use acs_tree::Slate;
use deck_meaning::{Config, DeckErr};
use desk_common::Items;
use dsn_mask::Name;
use sms_classes::Classified;
use sms_construct::{Alloc, DeckText, Op};
use sms_deck::read_deck;
use sms_script::{Item, Script, push_number_and_blank, push_word_and_blank};
use sms_simulation::{Simulated, all_items, first_other, push_outcome, push_written};
use sms_story::tell;
use std::alloc::{AllocError, Global};

/// What the routines of the deck that the script's first item activates do with each of the allocations behind it that
/// are of this job and have this number, where one is asked for (docs/manual/tool.md, "Explaining a script"). Nothing
/// is allocated.
pub fn explain(
    alloc: Global,
    script: &Script,
    job: &Option<Name>,
    number: Option<u32>,
) -> Result<Simulated, AllocError>
    ensures { IfOk result (IsExplanation job.now number (items_of script.now)) }
{
    let items = all_items(alloc, script.as_slice())?;
    explain_items(alloc, &items, job, number)
}

fn explain_items(
    alloc: Global,
    items: &[&Item],
    job: &Option<Name>,
    number: Option<u32>,
) -> Result<Simulated, AllocError>
    ensures { IfOk result (IsExplanation job.now number (map (λ item. item.now) items.now)) }
{
    match items {
        [] => Ok(Simulated::Shown(Items::new(alloc))),
        [first, others @ ..] => explain_from(alloc, first, others, job, number),
    }
}

// The explanation of an item and those behind it.
#[tactic(auto, using(crate::proofs::ExplanationLemmas::explained_under, crate::proofs::ExplanationLemmas::misplaced_behind))]
fn explain_from(
    alloc: Global,
    first: &Item,
    others: &[&Item],
    job: &Option<Name>,
    number: Option<u32>,
) -> Result<Simulated, AllocError>
    ensures { IfOk result (IsExplanation job.now number (first.now ∷ map (λ item. item.now) others.now)) }
{
    let Op::Activate(deck) = &first.request.op else {
        return Ok(Simulated::Misplaced(first.line));
    };
    if let Some(line) = first_other(others) {
        return Ok(Simulated::Misplaced(line));
    }
    explain_picked(alloc, deck, others, job, number)
}

// The explanation of an item that activates this deck, and of those ALLOCs behind it that are asked for.
fn explain_picked(
    alloc: Global,
    deck: &DeckText,
    others: &[&Item],
    job: &Option<Name>,
    number: Option<u32>,
) -> Result<Simulated, AllocError>
    ensures { IfOk result (IsExplainedUnder deck.now
        (filter (is_picked job.now number) (map (λ item. item.now) others.now))) }
{
    let picked = picked_items(alloc, others, job, number)?;
    explain_under(alloc, deck, &picked)
}

// The explanation of an item that activates this deck and of ALLOCs behind it.
fn explain_under(alloc: Global, deck: &DeckText, others: &[&Item]) -> Result<Simulated, AllocError>
    ensures { IfOk result (IsExplainedUnder deck.now (map (λ item. item.now) others.now)) }
{
    match read_deck(alloc, deck) {
        Ok(config) => explain_by(alloc, deck, &config, others),
        Err(DeckErr::Fault(fault)) => Ok(Simulated::Refused(fault)),
        Err(DeckErr::NoMemory) => Err(AllocError),
    }
}

// The same, by what the deck configures.
fn explain_by(
    alloc: Global,
    deck: &DeckText,
    config: &Config,
    others: &[&Item],
) -> Result<Simulated, AllocError>
    ensures { IfOk result (λ made. Configures deck.now config.now →
        IsExplainedUnder deck.now (map (λ item. item.now) others.now) made) }
{
    let sources = sources_of(alloc, deck)?;
    let text = text_of(alloc, config, &sources, others)?;
    Ok(Simulated::Shown(Items::from_vec(text)))
}

// What is told of the items.
fn text_of(
    alloc: Global,
    config: &Config,
    sources: &DeckSources,
    items: &[&Item],
) -> Result<Vec<u8>, AllocError>
    ensures { IfOk result (λ text.
        text.items ≡ flat_map (told_of config.now sources.now) (map (λ item. item.now) items.now)) }
{
    let mut text = Vec::new(alloc);
    let mut slate = Slate::new(alloc)?;
    for item in items {
        push_item(alloc, &mut text, config, sources, item, &mut slate)?;
    }
    Ok(text)
}

/// Puts what is told of an item behind a text, or only a front of it where memory is wanting; nothing but of an ALLOC.
pub fn push_item(
    alloc: Global,
    text: &mut Vec<u8>,
    config: &Config,
    sources: &DeckSources,
    item: &Item,
    slate: &mut Slate,
) -> Result<(), AllocError>
    ensures { OnOk result (text.new.items ≡ text.old.items ++ told_of config.now sources.now item.now) }
{
    match &item.request.op {
        Op::Alloc(allocation) => {
            push_alloc(alloc, text, config, sources, item, allocation.get(), slate)
        }
        _ => Ok(()),
    }
}

// What the routines do with the ALLOC of an item.
fn push_alloc(
    alloc: Global,
    text: &mut Vec<u8>,
    config: &Config,
    sources: &DeckSources,
    item: &Item,
    allocation: &Alloc,
    slate: &mut Slate,
) -> Result<(), AllocError>
    ensures { OnOk result (text.new.items ≡ text.old.items ++
        told_text config.now sources.now item.now allocation.now) }
{
    let story = tell(alloc, config, &item.request.job, allocation, slate)?;
    push_head(text, item, allocation)?;
    push_runs(text, sources, story.runs.as_slice())?;
    push_end(text, item, &story.classified)?;
    push_written(alloc, text, b"  ", &story.trace)?;
    Ok(())
}

fn push_head(text: &mut Vec<u8>, item: &Item, allocation: &Alloc) -> Result<(), AllocError>
    ensures { OnOk result (text.new.items ≡ text.old.items ++ head_text item.now allocation.now) }
{
    push_front(text, item)?;
    text.extend_from_slice(b"ALLOC ")?;
    text.extend_from_slice(allocation.input.dsn().bytes())?;
    text.extend_from_slice(b"\n")?;
    Ok(())
}

fn push_end(text: &mut Vec<u8>, item: &Item, classified: &Classified) -> Result<(), AllocError>
    ensures { OnOk result (text.new.items ≡ text.old.items ++
        end_text item.now classified.now.stop classified.now.values) }
{
    push_front(text, item)?;
    push_outcome(text, classified.stop, &classified.values)?;
    text.extend_from_slice(b"\n")?;
    Ok(())
}

// The line of an item in its script, its job and its number.
fn push_front(text: &mut Vec<u8>, item: &Item) -> Result<(), AllocError>
    ensures { OnOk result (text.new.items ≡ text.old.items ++ front_text item.now) }
{
    push_number_and_blank(text, u64::from(item.line))?;
    push_word_and_blank(text, item.request.job.bytes())?;
    push_number_and_blank(text, u64::from(item.request.number.get()))
}
