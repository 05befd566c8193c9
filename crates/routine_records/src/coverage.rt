//! The coverage of a script as records.
ghost use Rattle.std.specs.Prelude.{◌≡◌, ◌++◌, Some, flat_map, map, IfOk, OnOk};
ghost use Rattle.acs_coverage.specs.Counts.{tally_at};
ghost use Rattle.acs_coverage.specs.Points.{points_of};
ghost use Rattle.sms_script.specs.Script.{items_of};
ghost use Rattle.sms_construct.specs.Configuration.{routine_of};
ghost use Rattle.deck_meaning.specs.Reading.{Configures};
ghost use Rattle.sms_coverage.specs.Events.{counts_of, runs_of_item, tallies_in};
ghost use Rattle.sms_coverage.specs.Shortfall.{deck_short};
ghost use Rattle.routine_records.specs.CoveredRecords.{IsCoverageRecorded, deck_records, kind_records, routine_records};
ghost use Rattle.routine_records.specs.Inner.Under.{IsCoverageUnder};
ghost use Rattle.routine_records.specs.PointRecords.{point_record, points_front, points_records};

use crate::asked::asked_by;
use crate::point_fields::{NAMES, point_fields};
use acs_coverage::{Point, Tallies, points_of};
use acs_telling::Source;
use acs_tree::{Checked, Kind};
use deck_meaning::{Config, DeckErr};
use desk_common::Items;
use flat_records::{RecordForm, push_header, push_record};
use sms_construct::DeckText;
use sms_coverage::{Coverage, Covered, KindTallies, counted, is_short};
use sms_deck::read_deck;
use sms_explain::{DeckSources, sources_of};
use sms_script::{Item, Script};
use sms_simulation::all_items;
use std::alloc::{AllocError, Global};

// What was reached of the routines of a deck.
#[derive(Clone, Copy)]
struct Reached<'a> {
    config: &'a Config,
    sources: &'a DeckSources,
    tallies: &'a KindTallies,
}

/// What the allocations behind a script's first item reach of the routines of the deck that it activates: a record in
/// this form for each point of a routine; and whether that is less than `least` per cent of one of them
/// (docs/manual/tool.md, "Coverage of a script"). Nothing is allocated.
pub fn coverage_records(
    alloc: Global,
    form: RecordForm,
    script: &Script,
    least: u8,
) -> Result<Covered, AllocError>
    ensures { IfOk result (IsCoverageRecorded form least (items_of script.now)) }
{
    let items = all_items(alloc, script.as_slice())?;
    cover_items(alloc, form, &items, least)
}

#[tactic(auto, using(crate::proofs::CoveredLemmas::covered_under))]
fn cover_items(
    alloc: Global,
    form: RecordForm,
    items: &[&Item],
    least: u8,
) -> Result<Covered, AllocError>
    ensures { IfOk result (IsCoverageRecorded form least (map (λ item. item.now) items.now)) }
{
    match asked_by(items) {
        Ok(None) => {
            let front = front_text(alloc, form)?;
            Ok(Covered::Shown(Coverage {
                text: Items::from_vec(front),
                short: false,
            }))
        }
        Ok(Some(asked)) => cover_under(alloc, form, asked.deck, asked.others, least),
        Err(line) => Ok(Covered::Misplaced(line)),
    }
}

// The records where this deck is activated, of what the ALLOCs behind it reach.
fn cover_under(
    alloc: Global,
    form: RecordForm,
    deck: &DeckText,
    others: &[&Item],
    least: u8,
) -> Result<Covered, AllocError>
    ensures { IfOk result (IsCoverageUnder form least deck.now (map (λ item. item.now) others.now)) }
{
    match read_deck(alloc, deck) {
        Ok(config) => cover_by(alloc, form, deck, &config, others, least),
        Err(DeckErr::Fault(fault)) => Ok(Covered::Refused(fault)),
        Err(DeckErr::NoMemory) => Err(AllocError),
    }
}

// The same, by what the deck configures.
fn cover_by(
    alloc: Global,
    form: RecordForm,
    deck: &DeckText,
    config: &Config,
    others: &[&Item],
    least: u8,
) -> Result<Covered, AllocError>
    ensures { IfOk result (λ made. Configures deck.now config.now →
        IsCoverageUnder form least deck.now (map (λ item. item.now) others.now) made) }
{
    let sources = sources_of(alloc, deck)?;
    let coverage = coverage_of(alloc, form, config, &sources, others, least)?;
    Ok(Covered::Shown(coverage))
}

// What the items reach of the routines.
#[tactic(auto, using(crate::proofs::CoveredLemmas::same_records, crate::proofs::CoveredLemmas::same_shortfall))]
fn coverage_of(
    alloc: Global,
    form: RecordForm,
    config: &Config,
    sources: &DeckSources,
    items: &[&Item],
    least: u8,
) -> Result<Coverage, AllocError>
    ensures text { IfOk result (λ coverage. coverage.text ≡ deck_records form config.now sources.now
        (counts_of (flat_map (runs_of_item config.now) (map (λ item. item.now) items.now)))) }
    ensures short { IfOk result (λ coverage. coverage.short ≡ deck_short least config.now
        (counts_of (flat_map (runs_of_item config.now) (map (λ item. item.now) items.now)))) }
{
    let tallies = counted(alloc, config, items)?;
    let text = deck_text(alloc, form, config, sources, &tallies)?;
    let short = is_short(alloc, config, &tallies, least)?;
    Ok(Coverage {
        text: Items::from_vec(text),
        short,
    })
}

fn front_text(alloc: Global, form: RecordForm) -> Result<Vec<u8>, AllocError>
    ensures { IfOk result (λ text. text.items ≡ points_front form) }
{
    let mut text = Vec::new(alloc);
    push_header(alloc, &mut text, form, &NAMES)?;
    Ok(text)
}

// What stands before the records, and the records of the four routines.
fn deck_text(
    alloc: Global,
    form: RecordForm,
    config: &Config,
    sources: &DeckSources,
    tallies: &KindTallies,
) -> Result<Vec<u8>, AllocError>
    ensures { IfOk result (λ text. text.items ≡
        deck_records form config.now sources.now (λ kind. tally_at (tallies_in tallies.now kind))) }
{
    let reached = Reached {
        config,
        sources,
        tallies,
    };
    let mut text = front_text(alloc, form)?;
    push_kind(alloc, &mut text, form, &reached, Kind::DataClas)?;
    push_kind(alloc, &mut text, form, &reached, Kind::StorClas)?;
    push_kind(alloc, &mut text, form, &reached, Kind::MgmtClas)?;
    push_kind(alloc, &mut text, form, &reached, Kind::StorGrp)?;
    Ok(text)
}

// The records of the routine of a kind, where there is one.
fn push_kind(
    alloc: Global,
    text: &mut Vec<u8>,
    form: RecordForm,
    reached: &Reached<'_>,
    kind: Kind,
) -> Result<(), AllocError>
    ensures { OnOk result (text.new.items ≡ text.old.items ++
        kind_records form reached.now.config.now reached.now.sources.now
        (λ kind. tally_at (tallies_in reached.now.tallies.now kind)) kind) }
{
    match reached.config.source(kind) {
        None => Ok(()),
        Some(checked) => {
            let source = reached.sources.of_kind(kind);
            let counts = reached.tallies.of_kind(kind);
            push_routine(alloc, text, form, kind, source, checked, counts)
        }
    }
}

fn push_routine(
    alloc: Global,
    text: &mut Vec<u8>,
    form: RecordForm,
    kind: Kind,
    source: &Source,
    checked: &Checked,
    tallies: &Tallies,
) -> Result<(), AllocError>
    ensures { OnOk result (text.new.items ≡ text.old.items ++
        routine_records form kind source.now (tally_at tallies.now) (Some checked.now)) }
{
    let points = points_of(alloc, checked.tree())?;
    push_points(alloc, text, form, kind, source, points.as_slice(), tallies)
}

fn push_points(
    alloc: Global,
    text: &mut Vec<u8>,
    form: RecordForm,
    kind: Kind,
    source: &Source,
    points: &[Point],
    tallies: &Tallies,
) -> Result<(), AllocError>
    ensures { OnOk result (text.new.items ≡ text.old.items ++
        points_records form kind source.now (tally_at tallies.now) points.now) }
{
    for point in points {
        push_point(alloc, text, form, kind.name(), source, point, tallies)?;
    }
    Ok(())
}

fn push_point(
    alloc: Global,
    text: &mut Vec<u8>,
    form: RecordForm,
    name: &[u8],
    source: &Source,
    point: &Point,
    tallies: &Tallies,
) -> Result<(), AllocError>
    ensures { OnOk result (text.new.items ≡ text.old.items ++
        point_record form name.now source.now (tally_at tallies.now) point.now) }
{
    let tally = tallies.at(point.place());
    let fields = point_fields(alloc, name, source, point, &tally)?;
    push_record(alloc, text, form, &fields)
}
