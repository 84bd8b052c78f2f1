//! The plan for a finding: what `mkcheck check -e` prints.
#![tactic(auto)]

mod showing;

pub use showing::{Evidence, evidence_or_verdict, evidence_text};
