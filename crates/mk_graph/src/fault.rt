//! Faults in building a graph.

ghost use Rattle.std.specs.Prelude.{◌≡◌};
ghost use Rattle.mk_graph.specs.declared.fault.GraphFault.TheVariants.{Memory};

use mk_lines::Names;
use std::alloc::{AllocError, AllocFailed};
use thiserror::Error;

/// Why nodes and goals don't make a graph.
#[derive(Debug, Drop, Error)]
pub enum GraphFault {
    /// `Cycle` (42): the prerequisites form a cycle. It has the names along the first closed path
    /// that a depth-first walk from the goals finds, with the first name repeated at the end.
    /// `TooManyNodes` comes first.
    #[error("prerequisites form a cycle")]
    Cycle(Names),
    /// `TooManyNodes` (43): there are more than 4,096 nodes.
    #[error("over 4,096 nodes")]
    TooManyNodes,
    /// Out of memory. It may replace any other result.
    #[error("out of memory")]
    Memory,
}

impl From<AllocError> for GraphFault {
    ghost from_gives = { λ _ e. e ≡ Memory };

    fn from(_error: AllocError) -> GraphFault {
        GraphFault::Memory
    }
}

impl<T: Drop> From<AllocFailed<T>> for GraphFault {
    ghost from_gives = { λ _ e. e ≡ Memory };

    fn from(_error: AllocFailed<T>) -> GraphFault {
        GraphFault::Memory
    }
}
