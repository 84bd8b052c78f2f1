//! The printed text of graphs, verdicts and refusals.
#![tactic(auto)]

mod causes;
mod fault;
mod printing;
mod refusal;
mod rendering;
mod verdict;
mod wording;

pub use causes::caused_words;
pub use fault::Fault;
pub use printing::text_of;
pub use rendering::{findings_text, render, yes_line};
pub use verdict::{Findings, Verdict};
pub use wording::{fault_text, fault_words, step_fault_text, step_fault_words};
