//! The explanation of a script with the candidate volumes of its allocations.
ghost use Rattle.std.specs.Prelude.{◌≡◌, ◌++◌, ◌∷◌, filter, flat_map, map, IfOk, OnOk};
ghost use Rattle.deck_meaning.specs.Reading.{Configures};
ghost use Rattle.desk_law.specs.Allocation.{space_case};
ghost use Rattle.desk_law.specs.Candidates.{view_of, want_of};
ghost use Rattle.desk_law.specs.Classification.{Classes};
ghost use Rattle.desk_law.specs.Lawful.{IsLawful};
ghost use Rattle.desk_law.specs.State.{DeskState};
ghost use Rattle.desk_law.specs.Volumes.{volumes_in};
ghost use Rattle.sms_explain.specs.Picking.{is_picked};
ghost use Rattle.sms_script.specs.Script.{items_of};
ghost use Rattle.sms_simulation.specs.Simulation.{alloc_of};
ghost use Rattle.sms_volumes.specs.Asking.{IsAsked, ask_of};
ghost use Rattle.sms_volumes.specs.Holding.{AreVolumesOf, StandForSome};
ghost use Rattle.volume_reasons.specs.EmptyDesk.{empty_under};
ghost use Rattle.volume_reasons.specs.Explained.{IsVolumesExplained, case_text, told_with_volumes, volumes_if};
ghost use Rattle.volume_reasons.specs.Explained.{volumes_text};
ghost use Rattle.volume_reasons.specs.Inner.Stops.{is_done};
ghost use Rattle.volume_reasons.specs.Inner.Under.{IsVolumesExplainedUnder};
ghost use Rattle.volume_reasons.specs.Inner.Views.{is_listed};
ghost use Rattle.volume_reasons.specs.VolumesText.{views_text};

use crate::asking::{asked_for, want_of};
use crate::empty_desk::empty_volumes;
use crate::pushing::push_views;
use crate::viewing::views_of;
use acs_tree::{Slate, Values};
use deck_meaning::{Config, DeckErr};
use desk_common::Items;
use dsn_mask::Name;
use sms_classes::{classify, data_class_of, space_of};
use sms_construct::{Alloc, DeckText, Op, Stop};
use sms_deck::read_deck;
use sms_explain::{DeckSources, picked_items, push_item, sources_of};
use sms_script::{Item, Script};
use sms_simulation::{Simulated, all_items, first_other};
use sms_volumes::{ActiveVolumes, Asked};
use std::alloc::{AllocError, Global};

/// What the routines of the deck that the script's first item activates do with each of the allocations behind it that
/// are of this job and have this number, where one is asked for, and which of its candidate volumes may be chosen on a
/// desk that has just activated that deck (docs/manual/tool.md, "Candidate volumes"). Nothing is allocated.
pub fn explain_volumes(
    alloc: Global,
    script: &Script,
    job: &Option<Name>,
    number: Option<u32>,
) -> Result<Simulated, AllocError>
    ensures { IfOk result (IsVolumesExplained job.now number (items_of script.now)) }
{
    let items = all_items(alloc, script.as_slice())?;
    explain_items(alloc, &items, job, number)
}

fn explain_items(
    alloc: Global,
    items: &[&Item],
    job: &Option<Name>,
    number: Option<u32>,
) -> Result<Simulated, AllocError>
    ensures { IfOk result (IsVolumesExplained job.now number (map (λ item. item.now) items.now)) }
{
    match items {
        [] => Ok(Simulated::Shown(Items::new(alloc))),
        [first, others @ ..] => explain_from(alloc, first, others, job, number),
    }
}

// The explanation of an item and those behind it.
#[tactic(auto, using(crate::proofs::ExplainedLemmas::explained_under, crate::proofs::ExplainedLemmas::misplaced_behind))]
fn explain_from(
    alloc: Global,
    first: &Item,
    others: &[&Item],
    job: &Option<Name>,
    number: Option<u32>,
) -> Result<Simulated, AllocError>
    ensures { IfOk result (IsVolumesExplained job.now number (first.now ∷ map (λ item. item.now) others.now)) }
{
    let Op::Activate(deck) = &first.request.op else {
        return Ok(Simulated::Misplaced(first.line));
    };
    if let Some(line) = first_other(others) {
        return Ok(Simulated::Misplaced(line));
    }
    explain_picked(alloc, deck, others, job, number)
}

// The explanation of an item that activates this deck, and of those ALLOCs behind it that are asked for.
fn explain_picked(
    alloc: Global,
    deck: &DeckText,
    others: &[&Item],
    job: &Option<Name>,
    number: Option<u32>,
) -> Result<Simulated, AllocError>
    ensures { IfOk result (IsVolumesExplainedUnder deck.now
        (filter (is_picked job.now number) (map (λ item. item.now) others.now))) }
{
    let picked = picked_items(alloc, others, job, number)?;
    explain_under(alloc, deck, &picked)
}

// The explanation of an item that activates this deck and of ALLOCs behind it.
fn explain_under(alloc: Global, deck: &DeckText, others: &[&Item]) -> Result<Simulated, AllocError>
    ensures { IfOk result (IsVolumesExplainedUnder deck.now (map (λ item. item.now) others.now)) }
{
    match read_deck(alloc, deck) {
        Ok(config) => explain_by(alloc, deck, &config, others),
        Err(DeckErr::Fault(fault)) => Ok(Simulated::Refused(fault)),
        Err(DeckErr::NoMemory) => Err(AllocError),
    }
}

// The same, by what the deck configures.
fn explain_by(
    alloc: Global,
    deck: &DeckText,
    config: &Config,
    others: &[&Item],
) -> Result<Simulated, AllocError>
    ensures { IfOk result (λ made. Configures deck.now config.now →
        IsVolumesExplainedUnder deck.now (map (λ item. item.now) others.now) made) }
{
    let sources = sources_of(alloc, deck)?;
    let volumes = empty_volumes(alloc, config)?;
    let text = text_of(alloc, config, &sources, &volumes, others)?;
    Ok(Simulated::Shown(Items::from_vec(text)))
}

// What is told of the items, where the volumes are those of a desk that has just activated the configuration.
fn text_of(
    alloc: Global,
    config: &Config,
    sources: &DeckSources,
    volumes: &ActiveVolumes,
    items: &[&Item],
) -> Result<Vec<u8>, AllocError>
    requires stand { AreVolumesOf (empty_under config.now) volumes.now }
    ensures { IfOk result (λ text.
        text.items ≡ flat_map (told_with_volumes config.now sources.now) (map (λ item. item.now) items.now)) }
{
    let mut text = Vec::new(alloc);
    let mut slate = Slate::new(alloc)?;
    for item in items {
        push_told(alloc, &mut text, config, sources, volumes, item, &mut slate)?;
    }
    Ok(text)
}

// What is told of an item, and behind it its candidates.
fn push_told(
    alloc: Global,
    text: &mut Vec<u8>,
    config: &Config,
    sources: &DeckSources,
    volumes: &ActiveVolumes,
    item: &Item,
    slate: &mut Slate,
) -> Result<(), AllocError>
    requires stand { AreVolumesOf (empty_under config.now) volumes.now }
    ensures { OnOk result (text.new.items ≡ text.old.items ++
        told_with_volumes config.now sources.now item.now) }
{
    push_item(alloc, text, config, sources, item, slate)?;
    push_item_volumes(alloc, text, config, volumes, item, slate)?;
    Ok(())
}

// What is told of the candidates of an item; nothing but of an ALLOC.
fn push_item_volumes(
    alloc: Global,
    text: &mut Vec<u8>,
    config: &Config,
    volumes: &ActiveVolumes,
    item: &Item,
    slate: &mut Slate,
) -> Result<(), AllocError>
    requires stand { AreVolumesOf (empty_under config.now) volumes.now }
    ensures { OnOk result (text.new.items ≡ text.old.items ++
        volumes_if config.now item.now.request.job (alloc_of item.now.request.op)) }
{
    match &item.request.op {
        Op::Alloc(allocation) => {
            let job = &item.request.job;
            push_candidates(alloc, text, config, volumes, job, allocation.get(), slate)?;
            Ok(())
        }
        _ => Ok(()),
    }
}

// What is told of the candidates of an ALLOC of this job.
fn push_candidates(
    alloc: Global,
    text: &mut Vec<u8>,
    config: &Config,
    volumes: &ActiveVolumes,
    job: &Name,
    allocation: &Alloc,
    slate: &mut Slate,
) -> Result<(), AllocError>
    requires stand { AreVolumesOf (empty_under config.now) volumes.now }
    ensures { OnOk result (text.new.items ≡ text.old.items ++
        volumes_text config.now job.now allocation.now) }
{
    let classified = classify(config, job, allocation, slate);
    if !is_done(classified.stop) {
        return Ok(());
    }
    push_done(alloc, text, config, volumes, allocation, &classified.values)?;
    Ok(())
}

// Whether nothing stopped a classification.
fn is_done(stop: Stop) -> bool
    ensures { result ≡ is_done stop }
{
    match stop {
        Stop::Done => true,
        Stop::Unmanaged | Stop::Exit { .. } | Stop::Unknown { .. } | Stop::NoGroup => false,
    }
}

// The same where the classification is done and came to these values.
fn push_done(
    alloc: Global,
    text: &mut Vec<u8>,
    config: &Config,
    volumes: &ActiveVolumes,
    allocation: &Alloc,
    values: &Values,
) -> Result<(), AllocError>
    requires stand { AreVolumesOf (empty_under config.now) volumes.now }
    ensures { OnOk result ((classes : Classes) → classes.values ≡ values.now → text.new.items ≡ text.old.items ++
        case_text (empty_under config.now) (space_case allocation.now config.now classes)) }
{
    // Facts for the proof; nothing changes.
    let _deck = config.deck();
    let groups = values.groups.as_slice();
    match space_of(allocation, data_class_of(config, &values.dataclas)) {
        Some(space) => {
            let asked = asked_for(config, allocation, values, space);
            push_listed(alloc, text, volumes, groups, &asked)?;
            Ok(())
        }
        None => {
            text.extend_from_slice(b"  NO QUANTITY\n")?;
            Ok(())
        }
    }
}

// What is told of the volumes of these storage groups for what is asked.
fn push_listed(
    alloc: Global,
    text: &mut Vec<u8>,
    volumes: &ActiveVolumes,
    groups: &[Name],
    asked: &Asked<'_>,
) -> Result<(), AllocError>
    requires asked { IsAsked asked.now }
    requires stand { StandForSome volumes.now }
    ensures { OnOk result ((s : DeskState) → IsLawful s → AreVolumesOf s volumes.now →
        text.new.items ≡ text.old.items ++ views_text
        (map (view_of s (ask_of asked.now)) (filter (is_listed groups.now) (volumes_in s.active)))
        (want_of (ask_of asked.now))) }
{
    let views = views_of(alloc, volumes, groups, asked)?;
    push_views(text, &views, &want_of(asked))?;
    Ok(())
}
