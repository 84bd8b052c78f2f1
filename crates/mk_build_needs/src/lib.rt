//! What the nodes of a graph need, whatever prerequisites they have, and the first cycle of it.
#![tactic(auto)]

mod cycle;
pub mod laws;

pub use cycle::first_cycle;
