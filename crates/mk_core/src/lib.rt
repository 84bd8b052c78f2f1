//! Answers requests: from files to a graph, a verdict, a simulation, or a fault.
#![tactic(auto)]

mod checking;
mod command;
mod file_text;
mod graph;
mod judging;
pub mod laws;
mod leaking;
mod ready;
mod request;
mod selecting;
mod simulation;
mod verifying;

pub use checking::{check, verdict_of};
pub use graph::graph_text;
pub use judging::{Judge, answer_judged};
pub use leaking::drop_or_leak;
pub use mk_core_text::{Fault, Findings, Verdict, fault_text, render};
pub use mk_lines::{Name, Names};
pub use mk_read_files::{Files, FilesError};
pub use mk_read_parse::MemFiles;
pub use request::{Operands, Request, split_words};
pub use simulation::{Simulation, run_text, run_words, simulate};
pub use verifying::verify_text;
