//! What tests share: the rows of a table with their signs, long texts, and lists of names.
#![tactic(auto)]

mod table;
#[cfg(test)]
mod tests;
mod texts;

pub use table::{field, fields_of, lines_of, part, rows, unfolded};
pub use texts::{add_names, long, names};
