//! Builds whose recipes read by what they find: each behaves as a tree of reads. The laws say when
//! makes are right, whatever earlier sources made the recipes read.
#![tactic(auto)]

pub mod behaviour_laws;
