//! Reads files other than makefiles.

ghost use Rattle.std.specs.Prelude.{◌≡◌, true, IfErr};
ghost use Rattle.mk_read.specs.Files.{IfFits, Keeps};
ghost use Rattle.mk_core.specs.Answer.{NotesFailure};
ghost use Rattle.mk_core.specs.FileText.{text_of};
ghost use Rattle.mk_core.specs.Steps.{is_out_of_memory, seen};
ghost use Rattle.mk_core.specs.Views.{Finds};
ghost use Rattle.mk_core_text.specs.declared.fault.Fault.TheVariants.{Memory};

use mk_core_text::Fault;
use mk_lines::Name;
use mk_read_files::{Files, FilesError};
use std::alloc::Global;

/// The text of a file other than a makefile. The errors are `FileReadFailed` (35), `NoFile` (38),
/// and out of memory.
pub fn file_text<F: Files>(alloc: Global, files: &mut F, name: &str) -> Result<Vec<u8>, Fault>
    ensures keeps { Keeps (F.fits files.old) (F.fits files.new) }
    ensures text { IfFits (F.fits files.new)
        (λ told.
        Finds (λ failing. text_of told failing name.now) (seen (λ text. text.items) result)) }
    ensures memory { IfErr result (λ fault. is_out_of_memory fault ≡ true → fault ≡ Memory) }
    ensures noted { NotesFailure (F.failed files.old) (F.failed files.new) result }
{
    let asked = Name::new(alloc, name)?;
    match files.read(alloc, name) {
        Ok(Some(text)) => Ok(text),
        Ok(None) => Err(Fault::NoFile(asked)),
        Err(FilesError::ReadFailed) => Err(Fault::FileReadFailed(asked)),
        Err(FilesError::Memory) => Err(Fault::Memory),
    }
}
