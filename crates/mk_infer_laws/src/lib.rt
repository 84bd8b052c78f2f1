//! Laws of the names that goals reach, of their graph, and of written files that count as present.
#![tactic(auto)]

pub mod laws;
pub mod name_laws;
