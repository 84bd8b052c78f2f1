//! Recorded footprints: reads footprint files, and says which files are given and editable.
#![tactic(auto)]

mod book;
mod checks;
mod fault;
mod fields;
mod format;
mod groups;
mod key;
pub mod laws;
mod lists;
mod names;
mod parts;
mod reading;
mod records;
mod repeats;
mod setting;
mod shapes;

pub use book::{Book, Record};
pub use fault::FootFault;
pub use key::Key;
pub use reading::read_book;
pub use repeats::{contains_by_scan, empty_seen_set, is_repeated};
pub use setting::Setting;
