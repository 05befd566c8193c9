// Counting what happens in the classification of allocations.
ghost use Rattle.std.specs.Prelude.{◌≡◌, ◌++◌, IfOk, List, OnOk, flat_map, map};
ghost use Rattle.sms_coverage.specs.Events.{AreCounted, runs_of_item};
ghost use Rattle.sms_story.specs.declared.run.Run.{Run};

use crate::kind_tallies::KindTallies;
use deck_meaning::Config;
use sms_construct::Op;
use sms_script::Item;
use sms_story::runs_of;
use std::alloc::{AllocError, Global};

/// How often something happens in the routines while the items are classified.
#[tactic(auto, using(crate::proofs::CoverageLemmas::nothing_counted))]
pub fn counted(alloc: Global, config: &Config, items: &[&Item]) -> Result<KindTallies, AllocError>
    ensures { IfOk result (AreCounted (flat_map (runs_of_item config.now) (map (λ item. item.now) items.now))) }
{
    let mut tallies = KindTallies::new(alloc);
    for item in items {
        count_item(alloc, &mut tallies, config, item)?;
    }
    Ok(tallies)
}

fn count_item(
    alloc: Global,
    tallies: &mut KindTallies,
    config: &Config,
    item: &Item,
) -> Result<(), AllocError>
    ensures { OnOk result ((before : List Run) → AreCounted before tallies.old →
        AreCounted (before ++ runs_of_item config.now item.now) tallies.new) }
{
    match &item.request.op {
        Op::Alloc(allocation) => {
            let runs = runs_of(alloc, config, &item.request.job, allocation.get())?;
            tallies.count_runs(runs.as_slice())
        }
        _ => Ok(()),
    }
}
