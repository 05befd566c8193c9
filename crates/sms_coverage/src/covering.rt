//! The coverage of a script.
ghost use Rattle.std.specs.Prelude.{◌≡◌, ◌∷◌, flat_map, map, IfOk};
ghost use Rattle.sms_script.specs.Script.{items_of};
ghost use Rattle.deck_meaning.specs.Reading.{Configures};
ghost use Rattle.sms_coverage.specs.Coverage.{IsCoverage, IsCoveredUnder, deck_text};
ghost use Rattle.sms_coverage.specs.Events.{counts_of, runs_of_item};
ghost use Rattle.sms_coverage.specs.Shortfall.{deck_short};

use crate::counting::counted;
use crate::coverage::{Coverage, Covered};
use crate::shortfall::is_short;
use crate::text::push_deck;
use deck_meaning::{Config, DeckErr};
use desk_common::Items;
use sms_construct::{DeckText, Op};
use sms_deck::read_deck;
use sms_explain::{DeckSources, sources_of};
use sms_script::{Item, Script};
use sms_simulation::{all_items, first_other};
use std::alloc::{AllocError, Global};

/// What the allocations behind a script's first item reach of the routines of the deck that it activates, and whether
/// that is less than `least` per cent of one of them (docs/manual/tool.md, "Coverage of a script"). Nothing is allocated.
pub fn cover(alloc: Global, script: &Script, least: u8) -> Result<Covered, AllocError>
    ensures { IfOk result (IsCoverage least (items_of script.now)) }
{
    let items = all_items(alloc, script.as_slice())?;
    cover_items(alloc, &items, least)
}

fn cover_items(alloc: Global, items: &[&Item], least: u8) -> Result<Covered, AllocError>
    ensures { IfOk result (IsCoverage least (map (λ item. item.now) items.now)) }
{
    match items {
        [] => Ok(Covered::Shown(Coverage {
            text: Items::new(alloc),
            short: false,
        })),
        [first, others @ ..] => cover_from(alloc, first, others, least),
    }
}

// The coverage of an item and those behind it.
#[tactic(auto, using(crate::proofs::CoverageLemmas::covered_under, crate::proofs::CoverageLemmas::misplaced_behind))]
fn cover_from(
    alloc: Global,
    first: &Item,
    others: &[&Item],
    least: u8,
) -> Result<Covered, AllocError>
    ensures { IfOk result (IsCoverage least (first.now ∷ map (λ item. item.now) others.now)) }
{
    let Op::Activate(deck) = &first.request.op else {
        return Ok(Covered::Misplaced(first.line));
    };
    if let Some(line) = first_other(others) {
        return Ok(Covered::Misplaced(line));
    }
    cover_under(alloc, deck, others, least)
}

// The coverage of an item that activates this deck and of ALLOCs behind it.
fn cover_under(
    alloc: Global,
    deck: &DeckText,
    others: &[&Item],
    least: u8,
) -> Result<Covered, AllocError>
    ensures { IfOk result (IsCoveredUnder least deck.now (map (λ item. item.now) others.now)) }
{
    match read_deck(alloc, deck) {
        Ok(config) => cover_by(alloc, deck, &config, others, least),
        Err(DeckErr::Fault(fault)) => Ok(Covered::Refused(fault)),
        Err(DeckErr::NoMemory) => Err(AllocError),
    }
}

// The same, by what the deck configures.
fn cover_by(
    alloc: Global,
    deck: &DeckText,
    config: &Config,
    others: &[&Item],
    least: u8,
) -> Result<Covered, AllocError>
    ensures { IfOk result (λ made. Configures deck.now config.now →
        IsCoveredUnder least deck.now (map (λ item. item.now) others.now) made) }
{
    let sources = sources_of(alloc, deck)?;
    let coverage = coverage_of(alloc, config, &sources, others, least)?;
    Ok(Covered::Shown(coverage))
}

// What the items reach of the routines.
#[tactic(auto, using(crate::proofs::CoverageLemmas::same_text, crate::proofs::CoverageLemmas::same_shortfall))]
fn coverage_of(
    alloc: Global,
    config: &Config,
    sources: &DeckSources,
    items: &[&Item],
    least: u8,
) -> Result<Coverage, AllocError>
    ensures text { IfOk result (λ coverage. coverage.text ≡ deck_text config.now sources.now
        (counts_of (flat_map (runs_of_item config.now) (map (λ item. item.now) items.now)))) }
    ensures short { IfOk result (λ coverage. coverage.short ≡ deck_short least config.now
        (counts_of (flat_map (runs_of_item config.now) (map (λ item. item.now) items.now)))) }
{
    let tallies = counted(alloc, config, items)?;
    let mut text = Vec::new(alloc);
    push_deck(alloc, &mut text, config, sources, &tallies)?;
    let short = is_short(alloc, config, &tallies, least)?;
    Ok(Coverage {
        text: Items::from_vec(text),
        short,
    })
}
