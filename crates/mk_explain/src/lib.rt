//! Explains findings, faults and other printed words: what each means, when it comes, what to do.
#![tactic(auto)]

mod certificates;
mod explaining;
mod fault_text;
mod faults;
mod files;
mod findings;
mod footprints;
mod graph;
mod kinds;
pub mod laws;
mod lines;
mod macros;
mod names;
mod near;
mod plans;
mod spelling;
mod terms;

pub use explaining::{explain, overview};
pub use faults::{fault_name, fault_sentence, named_sentence};
pub use near::near_words;
