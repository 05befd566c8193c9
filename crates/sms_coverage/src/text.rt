// What is reached of the routines of a deck, as text.
ghost use Rattle.std.specs.Prelude.{◌≡◌, ◌++◌, OnOk, Some};
ghost use Rattle.acs_coverage.specs.Counts.{tally_at};
ghost use Rattle.sms_construct.specs.Configuration.{routine_of};
ghost use Rattle.sms_coverage.specs.Coverage.{deck_text, kind_text, routine_text};
ghost use Rattle.sms_coverage.specs.Events.{tallies_in};

use crate::kind_tallies::KindTallies;
use acs_coverage::{Tallies, points_of, push_coverage};
use acs_telling::Source;
use acs_tree::{Checked, Kind};
use deck_meaning::Config;
use sms_explain::DeckSources;
use std::alloc::{AllocError, Global};

/// Puts what was reached of the routines of a deck behind a text.
pub fn push_deck(
    alloc: Global,
    text: &mut Vec<u8>,
    config: &Config,
    sources: &DeckSources,
    tallies: &KindTallies,
) -> Result<(), AllocError>
    ensures { OnOk result (text.new.items ≡ text.old.items ++
        deck_text config.now sources.now (λ kind. tally_at (tallies_in tallies.now kind))) }
{
    push_kind(alloc, text, config, sources, tallies, Kind::DataClas)?;
    push_kind(alloc, text, config, sources, tallies, Kind::StorClas)?;
    push_kind(alloc, text, config, sources, tallies, Kind::MgmtClas)?;
    push_kind(alloc, text, config, sources, tallies, Kind::StorGrp)
}

// What was reached of the routine of a kind, where there is one.
fn push_kind(
    alloc: Global,
    text: &mut Vec<u8>,
    config: &Config,
    sources: &DeckSources,
    tallies: &KindTallies,
    kind: Kind,
) -> Result<(), AllocError>
    ensures { OnOk result (text.new.items ≡ text.old.items ++
        kind_text config.now sources.now (λ kind. tally_at (tallies_in tallies.now kind)) kind) }
{
    match config.source(kind) {
        None => Ok(()),
        Some(checked) => {
            let source = sources.of_kind(kind);
            let counts = tallies.of_kind(kind);
            push_routine(alloc, text, kind, source, checked, counts)
        }
    }
}

fn push_routine(
    alloc: Global,
    text: &mut Vec<u8>,
    kind: Kind,
    source: &Source,
    checked: &Checked,
    tallies: &Tallies,
) -> Result<(), AllocError>
    ensures { OnOk result (text.new.items ≡ text.old.items ++
        routine_text kind source.now (tally_at tallies.now) (Some checked.now)) }
{
    let points = points_of(alloc, checked.tree())?;
    push_coverage(text, kind.name(), source, points.as_slice(), tallies)
}
