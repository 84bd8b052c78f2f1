//! Runs the program: from the words of its command line to what it writes.
#![tactic(auto)]

mod answering;
mod running;
mod starting;

pub use running::run;
pub use starting::run_arguments;
