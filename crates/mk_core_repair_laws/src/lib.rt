//! The law that `repair` has one answer, over the definitions of mk_core_repair alone. The function
//! exists for its contract: a caller has the law as a fact.
#![tactic(auto)]

pub mod laws;
