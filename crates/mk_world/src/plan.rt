//! Plans: commands, one to a line.

ghost use Rattle.std.specs.Prelude.{◌≡◌};
ghost use Rattle.mk_world.specs.declared.plan.PlanFault.TheVariants.{Memory};

use mk_lines::{Name, Names};
use std::alloc::{AllocError, AllocFailed};
use std::marker::Model;
use thiserror::Error;

/// The command of a plan line. Nodes and files are given by name. A missing content means the stamp
/// that the file takes.
#[derive(Debug, Drop)]
pub enum PlanCommand {
    /// `make N G..`: begins a make with N jobs.
    Make {
        /// How many recipes may run at once, from 1 to 4,096.
        jobs: usize,
        /// The goals, empty for all goals of the graph.
        goals: Names,
    },
    /// `stop`: gives up the make.
    Stop,
    /// `begin T`: a recipe begins.
    Begin {
        /// Its node.
        node: Name,
    },
    /// `look T F`: a running recipe reads a file.
    Look {
        /// Its node.
        node: Name,
        /// The file.
        file: Name,
    },
    /// `put T F` or `put T F N`: a running recipe writes a content into a file.
    Put {
        /// Its node.
        node: Name,
        /// The file.
        file: Name,
        /// The new content, if the line gives one.
        content: Option<u64>,
    },
    /// `done T`: a running recipe ends.
    Done {
        /// Its node.
        node: Name,
    },
    /// `break T` or `break T removed`: a running recipe breaks off.
    Break {
        /// Its node.
        node: Name,
        /// Whether its target is removed.
        removed: bool,
    },
    /// `finish T`: a running recipe reads all its files, writes all its files, and ends.
    Finish {
        /// Its node.
        node: Name,
    },
    /// `run T`: a recipe begins and is finished.
    Run {
        /// Its node.
        node: Name,
    },
    /// `pass T`: a recipe is passed.
    Pass {
        /// Its node.
        node: Name,
    },
    /// `end`: the make ends.
    End,
    /// `edit F` or `edit F N`: a source is edited.
    Edit {
        /// The file.
        file: Name,
        /// The new content, if the line gives one.
        content: Option<u64>,
    },
}

/// A line of a plan with a command.
#[derive(Debug, Drop)]
pub struct PlanLine {
    /// Its number among all lines of the text, counted from 1.
    pub number: usize,
    /// Its command.
    pub order: PlanCommand,
}

/// A plan: its lines with commands, in order. Contracts see their list.
#[derive(Debug, Drop)]
pub struct Plan {
    lines: Vec<PlanLine>,
}

impl Model for Plan {
    ghost use Rattle.std.specs.Prelude.{List};
    ghost use Rattle.mk_world.specs.declared.plan.PlanLine.{PlanLine};

    ghost Value = { List PlanLine };

    ghost view = { λ p. p.lines.items };
}

impl Plan {
    /// The plan of these lines.
    pub fn new(lines: Vec<PlanLine>) -> Plan
        ensures { result ≡ lines.items }
    {
        Plan { lines }
    }

    /// The lines as a slice.
    pub fn as_slice(&self) -> &[PlanLine]
        ensures { result.now ≡ self.now }
    {
        self.lines.as_slice()
    }
}

/// Why a text isn't a plan.
#[derive(Debug, Drop, Error)]
pub enum PlanFault {
    /// `PlanLine` (69): the line with this number is the first that is malformed, or it is the
    /// 65,537th.
    #[error("bad line of the plan: {0}")]
    Line(usize),
    /// Out of memory. It may replace any other result.
    #[error("out of memory")]
    Memory,
}

impl From<AllocError> for PlanFault {
    ghost from_gives = { λ _ e. e ≡ Memory };

    fn from(_error: AllocError) -> PlanFault {
        PlanFault::Memory
    }
}

impl<T: Drop> From<AllocFailed<T>> for PlanFault {
    ghost from_gives = { λ _ e. e ≡ Memory };

    fn from(_error: AllocFailed<T>) -> PlanFault {
        PlanFault::Memory
    }
}
