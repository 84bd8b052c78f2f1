//! The verdict in words: what `mkcheck check -w` prints.
#![tactic(auto)]

mod checking;
mod refused_line;

pub use checking::{InWords, check_in_words, in_sentences};
pub use refused_line::{FileLine, line_in_file, line_of_fault};
