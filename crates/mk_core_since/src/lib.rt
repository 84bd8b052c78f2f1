//! Answers `since`: which files of an old build have to be removed before makes of a new one.
#![tactic(auto)]

mod below;
mod change;
mod comparing;
mod in_folder;
pub mod laws;
mod naming;
mod old_build;
mod old_request;
mod options;
mod outcome;
mod telling;
mod words;

pub use below::{Below, Folder, name_below};
pub use change::Change;
pub use comparing::since;
pub use outcome::{Since, since_message, since_output};
