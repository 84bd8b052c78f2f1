//! What a yes promises across sources: whatever recipes read before and whatever happened, makes at
//! the present sources are right.
#![tactic(auto)]

pub mod laws;
