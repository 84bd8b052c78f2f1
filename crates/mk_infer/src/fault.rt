//! Faults of goals, of the graph, and of the commands of names.

ghost use Rattle.std.specs.Prelude.{◌≡◌};
ghost use Rattle.mk_infer.specs.Steps.{is_out_of_memory};
ghost use Rattle.mk_infer.specs.declared.fault.InferFault.TheVariants.{Memory};

use mk_graph::GraphFault;
use mk_lines::Name;
use mk_macros::MacroFault;
use mk_read::Place;
use std::alloc::{AllocError, AllocFailed};
use thiserror::Error;

/// Why goals have no graph, or commands can't be expanded.
#[derive(Debug, Drop, Error)]
pub enum InferFault {
    /// A goal is no target name, or is `.WAIT` or `-` (27). The file of the place is `goal`, and
    /// its line is the number of the goal, counted from 1.
    #[error("a goal is no name")]
    BadGoal(Place),
    /// A goal holds `(` or `)` (28), even if `BadGoal` applies too. The place is as for `BadGoal`.
    #[error("a goal is an archive member")]
    GoalIsMember(Place),
    /// Nothing makes this name (41): it is no target, has no inference rule, isn't phony and isn't
    /// given. The place is that of the first rule line that has it as a prerequisite, if one has.
    #[error("no rule for a name that isn't given")]
    NoRule(Name, Option<Place>),
    /// No goal was given, and the makefile has no target that can be the default goal (44).
    #[error("no goal")]
    NoGoal,
    /// The rule line at this place gives prerequisites to an inference rule (45).
    #[error("an inference rule with prerequisites")]
    InferencePrerequisites(Place),
    /// The command at this place can't be expanded (11 to 17). The inner fault is never `Memory`.
    #[error("a command can't be expanded")]
    Macro(Place, MacroFault),
    /// The nodes are no graph (42, 43). The inner fault is never `Memory`. Of a cycle the place is
    /// that of the first rule line that closes it, if one does: its last name but one is a target
    /// there, and its last name a prerequisite.
    #[error("{0}")]
    Graph(GraphFault, Option<Place>),
    /// Out of memory. Any call may return it.
    #[error("out of memory")]
    Memory,
}

impl InferFault {
    /// Whether this is out of memory, at any depth of the fault.
    pub fn is_out_of_memory(&self) -> bool
        ensures { result ≡ is_out_of_memory self.now }
    {
        matches!(
            self,
            InferFault::Memory
                | InferFault::Macro(_, MacroFault::Memory)
                | InferFault::Graph(GraphFault::Memory, _)
        )
    }
}

impl From<AllocError> for InferFault {
    ghost from_gives = { λ _ e. e ≡ Memory };

    fn from(_error: AllocError) -> InferFault {
        InferFault::Memory
    }
}

impl<T: Drop> From<AllocFailed<T>> for InferFault {
    ghost from_gives = { λ _ e. e ≡ Memory };

    fn from(_error: AllocFailed<T>) -> InferFault {
        InferFault::Memory
    }
}
