//! A lazy breadth-first search.
#![tactic(auto)]

pub mod laws;
mod progress;
mod search;
mod visits;

pub use search::Search;
