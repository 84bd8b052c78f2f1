//! Mends a makefile: what `mkcheck repair` prints.
#![tactic(auto)]

mod freeing;
mod known_files;
mod needing;
mod outcome;
mod own_makefile;
mod rendering;
mod repairing;
mod round_files;
mod rounds;
mod stuck;
mod surveying;
mod trial;

pub use outcome::{Part, Repair, Stop, Why};
pub use rendering::{repair_message, repair_part, repair_text};
pub use repairing::repair;
