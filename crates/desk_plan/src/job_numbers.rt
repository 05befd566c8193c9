//! Jobs by number.
ghost use Rattle.std.specs.Prelude.{[], ◌≡◌, ◌<◌, ◌≤◌};
ghost use Rattle.desk_plan.specs.Plan.{worker_in};

use dsn_mask::Name;
use ordered_index::OrderedIndex;
use std::alloc::Global;
use std::marker::Model;

/// The numbers of jobs, from 0 on in the order in which they were put in. They are found by halving, so that no choice
/// of names makes a look-up long.
#[derive(Drop)]
pub struct JobNumbers {
    pub(crate) numbers: OrderedIndex<Name, usize>,
    // how many there are
    pub(crate) count: usize,
}

impl Model for JobNumbers {
    ghost use Rattle.std.specs.Prelude.{ℕ, List, length, ◌≡◌};

    ghost Value = { List (List ℕ × ℕ) };

    ghost view = { λ j. j.numbers.rows };

    ghost invariant = { λ j. j.count ≡ length j.numbers.rows };
}

impl JobNumbers {
    /// No job. It takes no memory.
    pub(crate) fn new(alloc: Global) -> Self
        ensures { result ≡ [] }
    {
        JobNumbers {
            numbers: OrderedIndex::new(alloc),
            count: 0,
        }
    }

    /// The worker of a job, of so many: the first for a job without a number, and the others in turn for those with
    /// one.
    pub fn worker(&self, job: &Name, workers: usize) -> usize
        requires { 2 ≤ workers }
        ensures value { result ≡ worker_in self.now workers job.now }
        ensures below { result < workers }
    {
        match self.numbers.get(job) {
            Some(number) => 1 + *number % (workers - 1),
            None => 0,
        }
    }
}
