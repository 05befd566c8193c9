//! What stays the same from phase to phase.
use desk_plan::JobNumbers;
use std::alloc::Global;

/// The workers of a run: what they are given in each phase.
#[derive(Drop)]
pub struct Crew<'a, R, G> {
    pub alloc: Global,
    pub rt: &'a R,
    pub numbers: &'a JobNumbers,
    pub workers: usize,
    pub gate: &'a G,
}
