//! The story of a classification.
ghost use Rattle.std.specs.Prelude.{◌≡◌, [], IfOk};
ghost use Rattle.desk_law.specs.Classification.{begin, classes_of, trace_of};
ghost use Rattle.sms_story.specs.Runs.{runs_of, values_behind};

use crate::begin::named_classes;
use crate::case_story::CaseStory;
use crate::onward::from_data_class;
use crate::run::Runs;
use acs_trace::tells_the_truth;
use acs_tree::Slate;
use deck_meaning::Config;
use desk_common::Items;
use dsn_mask::Name;
use sms_classes::classify;
use sms_construct::{Alloc, Trace};
use std::alloc::{AllocError, Global};

/// What happens in the routines of a configuration while the new data set of an ALLOC of this job is classified, and
/// what that comes to (docs/manual/tool.md, "Explaining a script"). What was on the slate is gone.
pub fn tell(
    alloc: Global,
    config: &Config,
    job: &Name,
    allocation: &Alloc,
    slate: &mut Slate,
) -> Result<CaseStory, AllocError>
    ensures runs { IfOk result (λ story. story.runs ≡ runs_of config.now job.now allocation.now) }
    // It comes to what the classification does, and so do the runs.
    ensures ends { IfOk result (λ story. values_behind (begin allocation.now).values story.runs ≡
        (classes_of config.now job.now allocation.now).values) }
    ensures values { IfOk result (λ story.
        story.classified.values ≡ (classes_of config.now job.now allocation.now).values) }
    ensures stop { IfOk result (λ story.
        story.classified.stop ≡ (classes_of config.now job.now allocation.now).stop) }
    ensures trace { IfOk result (λ story.
        story.trace ≡ trace_of (classes_of config.now job.now allocation.now)) }
{
    // A fact for the proof; nothing changes.
    tells_the_truth();
    let runs = runs_of(alloc, config, job, allocation)?;
    let classified = classify(config, job, allocation, slate);
    let trace = Trace::of(alloc, slate)?;
    Ok(CaseStory {
        runs,
        classified,
        trace,
    })
}

/// The runs of that classification.
pub fn runs_of(
    alloc: Global,
    config: &Config,
    job: &Name,
    allocation: &Alloc,
) -> Result<Runs, AllocError>
    ensures { IfOk result (λ runs. runs ≡ runs_of config.now job.now allocation.now) }
{
    let input = allocation
        .input
        .under(job, config.system(), config.sysplex());
    let mut values = named_classes(allocation);
    let mut runs = Items::new(alloc);
    from_data_class(alloc, config, &input, &mut values, &mut runs)?;
    Ok(runs)
}
