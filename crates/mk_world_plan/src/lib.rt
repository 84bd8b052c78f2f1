//! The text of plans: reading it, and writing a list of steps as one.
#![tactic(auto)]

mod keyword;
pub mod laws;
mod line_parser;
mod plan_parser;
mod tables;
mod writing;

pub use plan_parser::read_plan;
pub use writing::plan_text;
