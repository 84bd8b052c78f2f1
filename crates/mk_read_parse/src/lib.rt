//! Reads makefiles: their lines and the files that they include.
#![tactic(auto)]

mod commands;
mod including;
mod kinds;
mod line_location;
mod mem_files;
mod names;
mod no_files;
mod reading;
mod rules;
mod special;
mod state;

pub use kinds::{AssignmentLine, IncludeLine, Kind, RuleLine, kind_of};
pub use mem_files::MemFiles;
pub use names::{is_special, name_of, names_of};
pub use reading::read_makefile;
pub use special::{is_suffix, special_of};
