//! Tests of served desks: schedules of connections to a store.
#![tactic(auto)]

#[cfg(test)]
mod draws;
#[cfg(test)]
mod heard;
#[cfg(test)]
mod replay;
#[cfg(test)]
mod schedules;
