//! Tests of holds on a prefix: scripts of desks over a store in memory.
#![tactic(auto)]

#[cfg(test)]
mod desks;
#[cfg(test)]
mod scripts;
#[cfg(test)]
mod told;
#[cfg(test)]
mod turns;
#[cfg(test)]
mod writes;
