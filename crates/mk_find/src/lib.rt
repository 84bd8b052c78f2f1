//! All findings of a build: static ones, races and stale reads; or the certificate of a build
//! without findings. The laws say what it means that there are none.
#![tactic(auto)]

mod certifying;
mod file_findings;
mod file_names;
mod file_read;
mod finding;
pub mod finding_laws;
mod finding_list;
mod first;
mod first_path;
mod found;
mod happens_before;
mod hidden;
mod node_check;
mod node_findings;
mod nothing_found;
mod pairs;
mod path_tables;
mod race_findings;
mod read_status;
mod stale_findings;
mod static_checks;
pub mod way_laws;
mod writer_findings;

pub use certifying::certify;
pub use finding::Finding;
pub use first::{first_race, first_static};
pub use found::{findings, judge};
pub use hidden::hidden_findings;
pub use race_findings::races;
pub use static_checks::static_findings;
