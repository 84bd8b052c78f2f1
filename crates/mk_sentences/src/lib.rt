//! Findings in sentences: each group at a line of the makefile, with what mends it.
#![tactic(auto)]

mod adding;
mod advice;
mod counts;
pub mod laws;
mod listing;
mod phrases;
mod places;
mod rendering;
mod sentence;

pub use adding::push_lines;
pub use advice::push_advice;
pub use counts::{Counts, counts_of};
pub use places::Places;
pub use rendering::{sentences, shown_name};
pub use sentence::push_sentence;
