//! Readers of files, and what they have answered.
#![tactic(auto)]

mod answered;
mod cause;
mod files;
pub mod laws;

pub use answered::{Answer, Answered};
pub use cause::Cause;
pub use files::{Files, FilesError};
