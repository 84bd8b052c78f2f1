//! Why a text can't be split into logical lines.

ghost use Rattle.std.specs.Prelude.{◌≡◌};
ghost use Rattle.mk_lines.specs.declared.fault.LineFault.TheVariants.{Memory};

use std::alloc::{AllocError, AllocFailed};
use thiserror::Error;

/// Why a text can't be split into logical lines: the fault with the lowest number of the first
/// faulty line. Each carries the number of the line's first physical line, counted from 1.
#[derive(Debug, Drop, Error)]
pub enum LineFault {
    /// `NulByte` (1): the line holds byte 0.
    #[error("line {0} holds byte 0")]
    NulByte(usize),
    /// `LineTooLong` (2): the line is longer than 65,536 bytes.
    #[error("line {0} is over 65,536 bytes")]
    LineTooLong(usize),
    /// `TooManyLines` (3): the line is the 65,537th that isn't blank.
    #[error("line {0} is one line too many")]
    TooManyLines(usize),
    /// Out of memory. It can come in place of any result.
    #[error("out of memory")]
    Memory,
}

impl From<AllocError> for LineFault {
    ghost from_gives = { λ _ e. e ≡ Memory };

    fn from(_error: AllocError) -> LineFault {
        LineFault::Memory
    }
}

impl<T: Drop> From<AllocFailed<T>> for LineFault {
    ghost from_gives = { λ _ e. e ≡ Memory };

    fn from(_error: AllocFailed<T>) -> LineFault {
        LineFault::Memory
    }
}
