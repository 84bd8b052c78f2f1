//! The goals of a request, and the graph of the names that they reach.
#![tactic(auto)]

mod goals;
mod groups;
mod needed;
mod selection;
mod walk;

pub use goals::{Goals, goal_names};
pub use selection::select;
