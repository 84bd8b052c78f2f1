//! Evidence: schedules that show a race or a stale read.
#![tactic(auto)]

mod bound;
mod history;
pub mod laws;
mod making;
pub mod plan_laws;
mod race;
mod showing;
mod stale;

pub use showing::evidence;
