//! Limits of expansion: the bytes of a text and the number of references.

ghost use Rattle.std.specs.Prelude.{◌≡◌, ◌≤◌, ◌<◌, ◌++◌, length};
ghost use Rattle.mk_macros.specs.Appending.{AppendsRun};
ghost use Rattle.mk_macros.specs.Expansion.{counted};

use crate::fault::MacroFault;

/// The most bytes of a macro's text, and of an expanded text.
pub const MAX_LENGTH: usize = 1_048_576;

/// The most references that one expansion may evaluate.
const MAX_REFERENCES: usize = 65_536;

/// Appends bytes. Fails with `ValueTooLong` (15) where there are more than `room`, or with
/// `Memory`, out of memory.
pub fn append_run(room: usize, run: &[u8], into: &mut Vec<u8>) -> Result<(), MacroFault>
    ensures { AppendsRun room run.now into.old.items into.new.items result }
{
    if run.len() > room {
        return Err(MacroFault::ValueTooLong);
    }
    into.extend_from_slice(run)?;
    Ok(())
}

/// The number of references with one more. Fails with `TooManyReferences` (14) where 65,536 were
/// evaluated already.
pub fn counted(references: usize) -> Result<usize, MacroFault>
    ensures { result ≡ counted references }
{
    if references >= MAX_REFERENCES {
        return Err(MacroFault::TooManyReferences);
    }
    Ok(references + 1)
}
