//! Reads the files of a folder.

ghost use Rattle.std.specs.Prelude.{◌≡◌, IfOk};
ghost use Rattle.std.specs.String.{string_bytes};
ghost use Rattle.mk_core_since.specs.Below.{ends_in_slash, name_below};

use mk_read_files::{Answer, Answered, Cause, Files, FilesError};
use std::alloc::{AllocError, Global};

/// A reader of the files of one folder, by their names in it.
pub trait Folder: Files {
    /// Makes this the folder whose files are read. The only error is out of memory; the folder then
    /// stays.
    fn enter(&mut self, alloc: Global, folder: &str) -> Result<(), AllocError>;
}

/// A reader of the files of a folder, over a reader of all files. A map fits it if it gives the texts
/// that a map which fits the reader of all files has below the folder.
#[derive(Drop)]
pub struct Below<F> {
    files: F,
    folder: String,
    answered: Answered,
}

/// Whether a text ends in a slash.
fn ends_in_slash(text: &str) -> bool
    ensures { result ≡ ends_in_slash text.now }
{
    let bytes = text.as_bytes();
    if bytes.is_empty() {
        return false;
    }
    bytes[bytes.len() - 1] == b'/'
}

/// The name of a file of a folder, as seen from outside: the folder's name, a slash unless it ends
/// in one, and the file's name. The only error is out of memory.
pub fn name_below(alloc: Global, folder: &str, name: &str) -> Result<String, AllocError>
    ensures { IfOk result (λ full. string_bytes full ≡ name_below folder.now name.now) }
{
    let mut full = String::from_str(alloc, folder)?;
    if ends_in_slash(folder) {
        full.push_str(name)?;
        return Ok(full);
    }
    full.push_str("/")?;
    full.push_str(name)?;
    Ok(full)
}

impl<F> Below<F> {
    /// A reader over this one, which has read nothing. Its folder is yet to be entered.
    pub fn new(alloc: Global, files: F) -> Below<F>
        ensures { result.files ≡ files }
    {
        Below {
            files,
            folder: String::new(alloc),
            answered: Answered::new(),
        }
    }
}

impl<F: Files> Files for Below<F> {
    ghost use Rattle.mk_core_since.specs.Below.{FitsBelow};
    ghost use Rattle.std.specs.String.{string_bytes};

    ghost fits = { λ b told. FitsBelow (F.fits b.files) (string_bytes b.folder) told };

    ghost failed = { λ b. b.answered.given.failed };

    ghost cause = { λ b. F.cause b.files };

    fn read(&mut self, alloc: Global, name: &str) -> Result<Option<Vec<u8>>, FilesError> {
        let full = name_below(alloc, self.folder.as_str(), name)?;
        let read = self.files.read(alloc, full.as_str());
        self.answered = self.answered.with(&Answer {
            name,
            result: &read,
        });
        read
    }

    fn cause(&self) -> Cause {
        self.files.cause()
    }
}

impl<F: Files> Folder for Below<F> {
    fn enter(&mut self, alloc: Global, folder: &str) -> Result<(), AllocError>
        ensures { IfOk result (λ _. string_bytes self.new.folder ≡ folder.now) }
    {
        self.folder = String::from_str(alloc, folder)?;
        Ok(())
    }
}
