//! What builds of a graph do: their steps, when make allows them, what they leave, and the laws
//! that say when all of them are right.
#![tactic(auto)]

pub mod build_laws;
