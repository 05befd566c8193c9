//! Tests of parts by their own calls: streams of std, a client that waits for its answer, seats on threads, sizes.
#![tactic(auto)]

#[cfg(test)]
mod adapters;
#[cfg(test)]
mod asking;
#[cfg(test)]
mod sizes;
#[cfg(test)]
mod streams;
#[cfg(test)]
mod talking;
#[cfg(test)]
mod turns;
