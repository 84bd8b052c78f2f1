//! Why a plain line is refused, and why a makefile is refused.

ghost use Rattle.std.specs.Prelude.{◌≡◌};
ghost use Rattle.mk_read.specs.Steps.{is_out_of_memory};
ghost use Rattle.mk_read.specs.declared.fault.KindFault.TheVariants.{Memory};
ghost use Rattle.mk_read.specs.declared.fault.ReadFault.TheVariants.{Memory as NoMemory};

use crate::word::Word;
use mk_lines::{LineFault, Name};
use mk_macros::MacroFault;
use std::alloc::{AllocError, AllocFailed};
use thiserror::Error;

/// Why a plain line has no kind: the fault with the lowest number.
#[derive(Debug, Drop, Error)]
pub enum KindFault {
    /// `ShellAssign` (21): the operator is `!=`, whose value would come from a shell.
    #[error("shell assignment")]
    ShellAssign,
    /// `ColonAssign` (22): the operator is `:=`, whose meaning differs between makes.
    #[error("assignment with `:=`")]
    ColonAssign,
    /// `DoubleColon` (23): a second colon directly follows the first colon of a rule line.
    #[error("double-colon rule")]
    DoubleColon,
    /// `TargetMacro` (24): an `=` stands outside references among the prerequisites.
    #[error("target-specific macro")]
    TargetMacro,
    /// `NotALine` (25): outside references the line has none of `=` and `:` before a `;`, or no
    /// text before its colon.
    #[error("unknown kind of line")]
    NotALine,
    /// Out of memory. It can come in place of any result.
    #[error("out of memory")]
    Memory,
}

impl From<AllocError> for KindFault {
    ghost from_gives = { λ _ e. e ≡ Memory };

    fn from(_error: AllocError) -> KindFault {
        KindFault::Memory
    }
}

impl<T: Drop> From<AllocFailed<T>> for KindFault {
    ghost from_gives = { λ _ e. e ≡ Memory };

    fn from(_error: AllocFailed<T>) -> KindFault {
        KindFault::Memory
    }
}

/// A line of a file. For a macro operand the file is `operand`, and the line is the number of the
/// operand on the command line, from 1.
#[derive(Debug, Drop)]
pub struct Place {
    /// The name of the file.
    pub file: Name,
    /// The number of the line's first physical line, counted from 1.
    pub line: usize,
}

/// Why a makefile is refused: the first fault in the order of reading.
#[derive(Debug, Drop, Error)]
pub enum ReadFault {
    /// Faults 1 to 3: the text of this file has a faulty line.
    #[error("{1}")]
    Line(Name, LineFault),
    /// Faults 11 to 17: a text at this place can't be expanded, or a definition is refused.
    #[error("{1}")]
    Macro(Place, MacroFault),
    /// Faults 21 to 25: a plain line has no kind.
    #[error("{1}")]
    Kind(Place, KindFault),
    /// `StrayCommand` (26): a command line belongs to no rule line, and is no comment.
    #[error("command line without a rule")]
    StrayCommand(Place),
    /// `BadName` (27): this word is no name of a target or a file.
    #[error("bad name")]
    BadName(Place, Word),
    /// `BadMakefileName` (27): the name of the makefile is no plain path, or is `-`.
    #[error("bad makefile name")]
    BadMakefileName(Name),
    /// `ArchiveMember` (28): this word contains `(` or `)`.
    #[error("archive member")]
    ArchiveMember(Place, Word),
    /// `UnknownSpecial` (29): a target is a dot and three or more of `A-Z` and `_`, and is no known
    /// special target.
    #[error("unknown special target")]
    UnknownSpecial(Place),
    /// `SpecialShape` (30): a special target has another target beside it, has commands, or has
    /// words that it can't have. Where it has a command line, the place is that line.
    #[error("bad special target")]
    SpecialShape(Place),
    /// `TwoRecipes` (31): a second rule line has commands for the target. The place is that of the
    /// second line.
    #[error("second recipe for a target")]
    TwoRecipes(Place, Name),
    /// `IncludeMissing` (32): a file that an include line names doesn't exist.
    #[error("included file missing")]
    IncludeMissing(Place, Name),
    /// `IncludeDepth` (33): an include line is 16 levels deep.
    #[error("include nested too deeply")]
    IncludeDepth(Place),
    /// `IncludeEmpty` (34): an include line names no files.
    #[error("include without names")]
    IncludeEmpty(Place),
    /// `ReadFailed` (35): reading this file failed. The place is that of the include line; the
    /// makefile itself has none.
    #[error("read failed")]
    ReadFailed(Option<Place>, Name),
    /// `TooManyFiles` (36): more than 1,024 texts would be read.
    #[error("too many files")]
    TooManyFiles(Place),
    /// `NoMakefile` (37): the named makefile doesn't exist; without a name, neither `makefile` nor
    /// `Makefile` exists.
    #[error("no makefile")]
    NoMakefile(Option<Name>),
    /// Out of memory. It can come in place of any result.
    #[error("out of memory")]
    Memory,
}

impl ReadFault {
    /// Whether this fault, or the fault that it wraps, is out of memory.
    pub fn is_out_of_memory(&self) -> bool
        ensures { result ≡ is_out_of_memory self.now }
    {
        matches!(
            self,
            ReadFault::Memory
                | ReadFault::Line(_, LineFault::Memory)
                | ReadFault::Macro(_, MacroFault::Memory)
                | ReadFault::Kind(_, KindFault::Memory)
        )
    }
}

impl From<AllocError> for ReadFault {
    ghost from_gives = { λ _ e. e ≡ NoMemory };

    fn from(_error: AllocError) -> ReadFault {
        ReadFault::Memory
    }
}

impl<T: Drop> From<AllocFailed<T>> for ReadFault {
    ghost from_gives = { λ _ e. e ≡ NoMemory };

    fn from(_error: AllocFailed<T>) -> ReadFault {
        ReadFault::Memory
    }
}
