//! Tests of mkcheck_host and mkcheck_run, by their public calls.
#![tactic(auto)]

#[cfg(test)]
mod edges;
#[cfg(test)]
mod openings;
#[cfg(test)]
mod runs;
