//! Tests of the pages of a served desk.
#![tactic(auto)]

#[cfg(test)]
mod desks;
#[cfg(test)]
mod files;
#[cfg(test)]
mod many;
#[cfg(test)]
mod pages;
