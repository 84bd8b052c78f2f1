//! Faults in words, with why a read failed.

ghost use Rattle.std.specs.Prelude.{◌≡◌, ◌++◌, IfOk};
ghost use Rattle.mk_core_text.specs.Causes.{cause_words, cause_of_fault, caused_words, is_failed_read};

use crate::fault::Fault;
use crate::wording::fault_words;
use mk_read::ReadFault;
use mk_read_files::Cause;
use std::alloc::{AllocError, Global};

/// What follows a fault in words for this cause.
fn cause_words(cause: Cause) -> &'static str
    ensures { result.now ≡ cause_words cause }
{
    match cause {
        Cause::Folder => ": this one is a folder",
        Cause::Permission => ": there is no permission to read this one",
        Cause::TooLarge => ": this one has over 16,777,216 bytes",
        Cause::ReadBefore => ": this one can be read once only, and was",
        Cause::Other => "",
    }
}

/// Whether the fault is a failed read.
fn is_failed_read(fault: &Fault) -> bool
    ensures { result ≡ is_failed_read fault.now }
{
    matches!(
        fault,
        Fault::Read(ReadFault::ReadFailed(..)) | Fault::FileReadFailed(_)
    )
}

/// What follows this fault in words, where the last failed read has this cause.
fn cause_of_fault(fault: &Fault, cause: Cause) -> &'static str
    ensures { result.now ≡ cause_of_fault fault.now cause }
{
    if is_failed_read(fault) {
        cause_words(cause)
    } else {
        ""
    }
}

/// The text of a fault in words, as that of `fault_words`; for a failed read (35) with the cause of
/// the last failed read behind it, where that is known. The only error is out of memory.
pub fn caused_words(alloc: Global, fault: &Fault, cause: Cause) -> Result<Vec<u8>, AllocError>
    ensures { IfOk result (λ text. text.items ≡ caused_words fault.now cause) }
{
    let mut text = fault_words(alloc, fault)?;
    text.extend_from_slice(cause_of_fault(fault, cause).as_bytes())?;
    Ok(text)
}
