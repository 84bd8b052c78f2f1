//! That every history of builds can go on: by any edit, and by makes that run what may run.
#![tactic(auto)]

pub mod laws;
