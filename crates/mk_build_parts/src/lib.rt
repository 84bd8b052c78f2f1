//! That a part of a graph, as a make of some goals selects it, is built as the whole graph would
//! be.
#![tactic(auto)]

pub mod laws;
