//! Laws about the answers of mk_core and mk_core_evidence, over their definitions alone. Each
//! function exists for its contract: a caller has the law as a fact.
#![tactic(auto)]

pub mod answer_laws;
pub mod certificate_laws;
pub mod plan_laws;
