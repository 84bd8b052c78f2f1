//! The state of a build in progress, the steps that change it, and runs of plans, which consist of
//! such steps.
#![tactic(auto)]

mod breaking;
mod disk;
mod ending;
mod fault;
mod file;
mod finishing;
mod first;
mod footprints;
mod judging;
pub mod laws;
mod lent;
mod making;
mod names;
mod outcomes;
mod passing;
mod places;
mod plan;
mod progress;
mod recipes;
mod running;
mod scene;
mod sorted;
mod step;
mod table;
mod world;

pub use fault::StepFault;
pub use file::Listed;
pub use plan::{Plan, PlanCommand, PlanFault, PlanLine};
pub use running::{Run, print_files, run_plan};
pub use step::Step;
pub use world::World;
