//! Computes the makefile lines that mend a makefile: from findings to words, which say what the
//! makefile lacks, and from words to the text of lines.
#![tactic(auto)]

mod commanded;
mod finding_words;
mod gathering;
pub mod laws;
mod lines;
mod lookups;
mod make_name;
mod makers;
mod needed;
mod node_name;
mod obstacle;
mod pieces;
mod provider;
mod rows;
mod unreached;
mod word;
mod words;

pub use finding_words::{word_of, words_of};
pub use gathering::add_value;
pub use lines::{lines_text, push_lines_between};
pub use lookups::{Lookups, lookups_of};
pub use makers::{Makers, makers_of};
pub use needed::needs_directly;
pub use obstacle::{Obstacle, obstacle_of};
pub use pieces::pieces_of;
pub use word::Word;
pub use words::Words;
