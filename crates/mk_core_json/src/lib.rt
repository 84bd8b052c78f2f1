//! The answers as JSON: what the commands print with `--json`.
#![tactic(auto)]

mod checking;
mod comparing;
mod fault_name;
mod fault_words;
mod finding;
mod group;
mod names;
mod no;
mod other;
mod refusal;
mod writing;
mod yes;

pub use checking::{InJson, check_in_json};
pub use comparing::{named_in_json, told_in_json};
pub use other::{mended_in_json, printed_in_json, run_in_json, unmended_in_json};
pub use refusal::{old_refusal_in_json, refusal_text};
