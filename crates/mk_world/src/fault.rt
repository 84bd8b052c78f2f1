//! Why a step is refused.

ghost use Rattle.std.specs.Prelude.{◌≡◌, ◌↔◌, true};
ghost use Rattle.mk_world.specs.declared.fault.StepFault.TheVariants.{Memory};

use std::alloc::{AllocError, AllocFailed};
use thiserror::Error;

/// Why a step is refused: the first test that fails.
#[derive(Debug, Drop, Error)]
pub enum StepFault {
    /// `ClockSpent` (59): no stamp is left.
    #[error("no stamp is left")]
    ClockSpent,
    /// `OtherOutcome` (60): the recipe has read the same before and wrote something else.
    #[error("another outcome is known")]
    OtherOutcome,
    /// `NoMake` (61): no make is in progress.
    #[error("no make is in progress")]
    NoMake,
    /// `MakeRuns` (62): a make is in progress.
    #[error("a make is in progress")]
    MakeRuns,
    /// `NotReady` (63): the node isn't ready, or it is to begin and has no recipe.
    #[error("the node isn't ready")]
    NotReady,
    /// `NoJobFree` (64): as many recipes run as there are jobs, or the new make has no jobs.
    #[error("no job is free")]
    NoJobFree,
    /// `OutOfDate` (65): the recipe must run and can't be passed.
    #[error("the recipe must run")]
    OutOfDate,
    /// `NotRunning` (66): the recipe isn't running.
    #[error("the recipe isn't running")]
    NotRunning,
    /// `NotInFootprint` (67): the recipe isn't recorded to read the file that it looks at, or to
    /// write the file that it puts.
    #[error("the file isn't in the footprint")]
    NotInFootprint,
    /// `NotAllDone` (68): a recipe ends before all its reads and writes; a make is stopped while a
    /// recipe runs; or a make ends while a recipe runs or a goal isn't done.
    #[error("something isn't done")]
    NotAllDone,
    /// `PlanLine` (69): a line of a plan names a node or a file that doesn't exist in the world.
    #[error("unknown name")]
    PlanLine,
    /// `NotEditable` (70): the file isn't editable.
    #[error("the file isn't editable")]
    NotEditable,
    /// `NotAGoal` (77): the make has no goal, or one that isn't a goal of the graph.
    #[error("not a goal of the graph")]
    NotAGoal,
    /// `NotLeftToRun` (78): a recipe breaks off that would not have to run then: it needn't run on
    /// the disk as it is, or it isn't recorded to write the target that is removed.
    #[error("the recipe would not have to run again")]
    NotLeftToRun,
    /// Out of memory. It may replace any other result.
    #[error("out of memory")]
    Memory,
}

/// Whether a fault is out of memory.
pub fn is_memory(fault: &StepFault) -> bool
    ensures { (result ≡ true) ↔ (fault.now ≡ StepFault.Memory) }
{
    matches!(fault, StepFault::Memory)
}

impl From<AllocError> for StepFault {
    ghost from_gives = { λ _ e. e ≡ Memory };

    fn from(_error: AllocError) -> StepFault {
        StepFault::Memory
    }
}

impl<T: Drop> From<AllocFailed<T>> for StepFault {
    ghost from_gives = { λ _ e. e ≡ Memory };

    fn from(_error: AllocFailed<T>) -> StepFault {
        StepFault::Memory
    }
}
