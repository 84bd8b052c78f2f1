//! Certificates of a yes, how they are written as text, and how they are read.
#![tactic(auto)]

mod certificate;
mod fault;
mod fields;
mod key;
pub mod laws;
mod packed_names;
mod path;
mod reading;
mod reading_ways;
mod ways;
mod writing;

pub use certificate::{Certificate, Finish, Way};
pub use fault::CertTextFault;
pub use key::Key;
pub use packed_names::PackedNames;
pub use path::Path;
pub use reading::read_certificate;
pub use ways::Ways;
pub use writing::certificate_text;
