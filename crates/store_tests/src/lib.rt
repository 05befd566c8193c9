//! Tests of the calls over a lasting store.
#![tactic(auto)]

#[cfg(test)]
mod calls;
#[cfg(test)]
mod stores;
#[cfg(test)]
mod words;
