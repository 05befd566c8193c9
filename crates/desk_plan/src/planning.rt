//! The plan of a phase.
ghost use Rattle.std.specs.Prelude.{◌≡◌, ◌<◌, ◌≤◌, Decides, IfOk, bytes_eq};
ghost use Rattle.std.specs.List.{list_all};
ghost use Rattle.desk_plan.specs.Plan.{plan_of};
ghost use Rattle.desk_plan.specs.Numbering.{AreOfOneJob};

use crate::job_numbers::JobNumbers;
use dsn_mask::Name;
use sms_script::Item;
use std::alloc::{AllocError, Global};

/// The worker of each item of a phase, of so many workers.
pub fn plan(
    alloc: Global,
    numbers: &JobNumbers,
    items: &[Item],
    workers: usize,
) -> Result<Vec<usize>, AllocError>
    requires { 2 ≤ workers }
    ensures plan { IfOk result (λ plan. plan.items ≡ plan_of numbers.now workers items.now) }
{
    let mut plan = Vec::with_capacity(alloc, items.len())?;
    for item in items {
        plan.push_reserved(numbers.worker(&item.request.job, workers));
    }
    Ok(plan)
}

/// Whether all items of a phase are of one job, as those of an empty phase are.
pub fn has_one_job(items: &[Item]) -> bool
    ensures one { Decides result (AreOfOneJob items.now) }
{
    match items {
        [first, rest @ ..] => are_of(rest, &first.request.job),
        [] => true,
    }
}

// Whether all items are of this job.
fn are_of(items: &[Item], job: &Name) -> bool
    ensures { result ≡ list_all (λ item. bytes_eq item.request.job job.now) items.now }
{
    items.iter().all(|item| item.request.job == *job)
}
