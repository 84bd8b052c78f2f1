//! Which nodes a make wants and which it can pass, updated as nodes are done.
#![tactic(auto)]

mod bytes;
mod layout;
mod readiness;
mod remaining_groups;
mod rows;
mod state;

pub use readiness::Readiness;
