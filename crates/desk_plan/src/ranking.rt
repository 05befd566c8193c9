//! The workers that have an item of a phase.
ghost use Rattle.std.specs.Prelude.{◌≡◌, ◌<◌, ◌==◌, All, IfOk, length, map, max, slice_index_or, if◌then◌else◌};
ghost use Rattle.std.specs.List.{list_any};
ghost use Rattle.desk_plan.specs.Plan.{at_work, rank_in};
ghost use Rattle.desk_plan.specs.Inner.Ranks.{first_ranks};

use std::alloc::{AllocError, Global};

/// The plan by the workers that have an item, of so many, with numbers from 0 on in their order; and how many they are,
/// at least 1.
pub fn rank(
    alloc: Global,
    plan: &[usize],
    workers: usize,
) -> Result<(Vec<usize>, usize), AllocError>
    requires { All (λ worker. worker < workers) plan.now }
    ensures plan { IfOk result (λ r. r.0.items ≡ map (rank_in plan.now) plan.now) }
    ensures count { IfOk result (λ r. r.1 ≡ max 1 (at_work plan.now workers)) }
{
    let (ranks, count) = ranks_of(alloc, plan, workers)?;
    Ok((by_ranks(alloc, plan, &ranks)?, count.max(1)))
}

// The rank of each worker of so many, and how many have an item.
fn ranks_of(
    alloc: Global,
    plan: &[usize],
    workers: usize,
) -> Result<(Vec<usize>, usize), AllocError>
    ensures ranks { IfOk result (λ r. r.0.items ≡ first_ranks plan.now workers) }
    ensures count { IfOk result (λ r. r.1 ≡ at_work plan.now workers) }
{
    let mut ranks = Vec::with_capacity(alloc, workers)?;
    let mut count = 0usize;
    for worker in 0..workers {
        let is_at_work = has_item(plan, worker);
        ranks.push_reserved(number_if(is_at_work, count));
        count += number_if(is_at_work, 1);
    }
    Ok((ranks, count))
}

// The number where the worker has an item, and else 0.
fn number_if(is_at_work: bool, number: usize) -> usize
    ensures { result ≡ (if is_at_work then number else 0) }
{
    if is_at_work { number } else { 0 }
}

// Whether the worker has an item.
fn has_item(plan: &[usize], worker: usize) -> bool
    ensures { result ≡ list_any (λ other. other == worker) plan.now }
{
    plan.iter().any(|other| *other == worker)
}

// The rank of a worker.
fn rank_at(ranks: &[usize], worker: usize) -> usize
    requires { worker < length ranks.now }
    ensures { result ≡ slice_index_or ranks.now worker 0 }
{
    ranks[worker]
}

// The rank of each item's worker.
fn by_ranks(alloc: Global, plan: &[usize], ranks: &[usize]) -> Result<Vec<usize>, AllocError>
    requires { All (λ worker. worker < length ranks.now) plan.now }
    ensures { IfOk result (λ ranked. ranked.items ≡ map (λ worker. slice_index_or ranks.now worker 0) plan.now) }
{
    let mut ranked = Vec::with_capacity(alloc, plan.len())?;
    for worker in plan {
        ranked.push_reserved(rank_at(ranks, *worker));
    }
    Ok(ranked)
}
