//! Whether enough of the routines of a deck is covered.
ghost use Rattle.std.specs.Prelude.{◌≡◌, IfOk, Some};
ghost use Rattle.acs_coverage.specs.Counts.{tally_at};
ghost use Rattle.sms_coverage.specs.Events.{tallies_in};
ghost use Rattle.sms_coverage.specs.Shortfall.{deck_short, kind_short, routine_short};

use crate::kind_tallies::KindTallies;
use acs_coverage::{Tallies, covered_points, points_of};
use acs_tree::{Checked, Kind};
use deck_meaning::Config;
use std::alloc::{AllocError, Global};

/// Whether less than so many per cent of the points of a routine are covered.
pub fn is_short(
    alloc: Global,
    config: &Config,
    tallies: &KindTallies,
    least: u8,
) -> Result<bool, AllocError>
    ensures { IfOk result (λ short. short ≡
        deck_short least config.now (λ kind. tally_at (tallies_in tallies.now kind))) }
{
    let data = kind_short(alloc, config, tallies, least, Kind::DataClas)?;
    let storage = kind_short(alloc, config, tallies, least, Kind::StorClas)?;
    let management = kind_short(alloc, config, tallies, least, Kind::MgmtClas)?;
    let groups = kind_short(alloc, config, tallies, least, Kind::StorGrp)?;
    Ok(data || (storage || (management || groups)))
}

// The same of the routine of a kind.
fn kind_short(
    alloc: Global,
    config: &Config,
    tallies: &KindTallies,
    least: u8,
    kind: Kind,
) -> Result<bool, AllocError>
    ensures { IfOk result (λ short. short ≡
        kind_short least config.now (λ kind. tally_at (tallies_in tallies.now kind)) kind) }
{
    match config.source(kind) {
        None => Ok(false),
        Some(checked) => routine_short(alloc, checked, tallies.of_kind(kind), least),
    }
}

fn routine_short(
    alloc: Global,
    checked: &Checked,
    tallies: &Tallies,
    least: u8,
) -> Result<bool, AllocError>
    ensures { IfOk result (λ short. short ≡ routine_short least (tally_at tallies.now) (Some checked.now)) }
{
    let points = points_of(alloc, checked.tree())?;
    let covered = covered_points(points.as_slice(), tallies) as u128;
    let wanted = least as u128 * points.as_slice().len() as u128;
    Ok(100 * covered < wanted)
}
