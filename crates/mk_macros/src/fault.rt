//! Why a text can't be expanded, or a definition is refused.

ghost use Rattle.std.specs.Prelude.{◌≡◌};
ghost use Rattle.mk_macros.specs.declared.fault.MacroFault.TheVariants.{Memory};

use crate::macro_name::MacroName;
use std::alloc::{AllocError, AllocFailed};
use thiserror::Error;

/// Why a text can't be expanded, or a definition is refused: the first fault from left to right.
#[derive(Debug, Drop, Error)]
pub enum MacroFault {
    /// `BadMacroName` (11): a name isn't one or more of `A-Z a-z 0-9 . _ -`, a reference has a `:`
    /// and no `=` after it, or an operand has no `=`.
    #[error("bad macro name")]
    BadMacroName,
    /// `Recursive` (12): a macro refers to itself while its value is expanded.
    #[error("a macro refers to itself")]
    Recursive(MacroName),
    /// `Unclosed` (13): a reference isn't closed.
    #[error("unclosed reference")]
    Unclosed,
    /// `TooManyReferences` (14): the 65,537th reference of an expansion, or a reference at level
    /// 256.
    #[error("too many references")]
    TooManyReferences,
    /// `ValueTooLong` (15): an expanded text, also inside a reference, or a text to store is longer
    /// than 1,048,576 bytes.
    #[error("value over 1,048,576 bytes")]
    ValueTooLong,
    /// `LoneDollar` (16): a `$` at the end of a text, or before a byte that is no `$`, `(` or `{`,
    /// can't be part of a macro's name, and is no internal macro.
    #[error("lone dollar")]
    LoneDollar,
    /// `MemberMacro` (17): `$%`, `$(%D)` or `$(%F)`, which stand for a member of an archive.
    #[error("macro of an archive member")]
    MemberMacro,
    /// Out of memory. It can come in place of any result.
    #[error("out of memory")]
    Memory,
}

impl From<AllocError> for MacroFault {
    ghost from_gives = { λ _ e. e ≡ Memory };

    fn from(_error: AllocError) -> MacroFault {
        MacroFault::Memory
    }
}

impl<T: Drop> From<AllocFailed<T>> for MacroFault {
    ghost from_gives = { λ _ e. e ≡ Memory };

    fn from(_error: AllocFailed<T>) -> MacroFault {
        MacroFault::Memory
    }
}
