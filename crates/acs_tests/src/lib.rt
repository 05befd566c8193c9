//! Tests of the language of ACS routines where no text shows it: masks and filter lists by their calls, and runs on
//! values that no ALLOC gives.
#![tactic(auto)]

#[cfg(test)]
mod filter_lists;
#[cfg(test)]
mod masks;
#[cfg(test)]
mod run_input;
#[cfg(test)]
mod runs;
#[cfg(test)]
mod statement_runs;
#[cfg(test)]
mod value_runs;
