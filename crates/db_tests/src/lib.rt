//! Tests of the keeper over real files.
#![tactic(auto)]

#[cfg(test)]
mod changes;
#[cfg(test)]
mod files;
