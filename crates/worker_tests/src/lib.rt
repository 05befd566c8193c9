//! Tests of a desk that workers share.
#![tactic(auto)]

#[cfg(test)]
mod holding;
#[cfg(test)]
mod loads;
#[cfg(test)]
mod replaying;
#[cfg(test)]
mod running;
#[cfg(test)]
mod runs;
