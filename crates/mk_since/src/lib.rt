//! Which files of an old build have to be removed before makes of a new one: what is kept of the
//! old build, and the rules that name files.
#![tactic(auto)]

mod doubts;
pub mod laws;
mod named;
mod past;
mod past_recipe;
mod rules;

pub use named::named_files;
pub use past::{Past, past_of};
