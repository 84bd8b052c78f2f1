//! A reader of files in memory, for tests.

ghost use Rattle.std.specs.Prelude.{◌≡◌, ◌↔◌, ◌∷◌, ◌++◌, [], OnOk, OnErr, IfOk, IfErr, IsErrOf, None, Some};
ghost use Rattle.std.specs.Option.{option_map};
ghost use Rattle.mk_read.specs.Files.{text_at};
ghost use Rattle.mk_read_parse.specs.MemFiles.{entries};
ghost use Rattle.mk_read_files.specs.declared.files.FilesError.TheVariants.{Memory, ReadFailed};
ghost use Rattle.mk_read_files.specs.declared.cause.Cause.TheVariants.{Other};

use mk_lines::Name;
use mk_read_files::{Answer, Answered, Cause, Files, FilesError};
use std::alloc::{AllocError, Global};

/// A file in memory.
#[derive(Debug, Drop)]
pub struct MemFile {
    name: Name,
    text: Vec<u8>,
}

/// A list of files in memory, of which the first with a name counts, and the number of the read
/// that fails, if one does. Contracts know its map.
#[derive(Drop)]
pub struct MemFiles {
    files: Vec<MemFile>,
    fails_at: Option<u64>,
    reads: u64,
    answered: Answered,
}

/// The text of the first file with this name.
fn text_of<'a>(files: &'a [MemFile], name: &str) -> Option<&'a [u8]>
    ensures { option_map (λ text. text.now) result ≡ text_at (entries files.now) name.now }
{
    for file in files {
        if file.name.as_str() == name {
            return Some(&file.text);
        }
    }
    None
}

/// A copy of the text, if there is one.
fn copied(alloc: Global, text: Option<&[u8]>) -> Result<Option<Vec<u8>>, FilesError>
    ensures text { IfOk result (λ copy. option_map (λ bytes. bytes.items) copy ≡
        option_map (λ bytes. bytes.now) text.entry) }
    ensures memory { IfErr result (λ error. error ≡ Memory) }
{
    match text {
        Some(text) => Ok(Some(Vec::from_slice(alloc, text)?)),
        None => Ok(None),
    }
}

impl MemFiles {
    ghost use Rattle.mk_read_parse.specs.MemFiles.{told_by, failed_of, failing_of, reads_of, next_read, IsToFail};

    /// A reader without files, none of whose reads fails.
    pub fn new(alloc: Global) -> MemFiles
        ensures files { told_by result ≡ [] }
        ensures failed { failed_of result ≡ [] }
        ensures failing { failing_of result ≡ None }
        ensures reads { reads_of result ≡ 0 }
    {
        MemFiles {
            files: Vec::new(alloc),
            fails_at: None,
            reads: 0,
            answered: Answered::new(),
        }
    }

    /// Adds a file after the others. The only error is out of memory; the files are then unchanged.
    pub fn add(&mut self, name: &str, text: &[u8]) -> Result<(), AllocError>
        ensures ok { OnOk result (told_by self.new ≡
            told_by self.old ++ (name.now, text.now) ∷ []) }
        ensures err { OnErr result (told_by self.new ≡ told_by self.old) }
        ensures failed { failed_of self.new ≡ failed_of self.old }
        ensures failing { failing_of self.new ≡ failing_of self.old }
        ensures reads { reads_of self.new ≡ reads_of self.old }
    {
        let alloc = *self.files.allocator();
        let file = MemFile {
            name: Name::new(alloc, name)?,
            text: Vec::from_slice(alloc, text)?,
        };
        self.files.push(file)?;
        Ok(())
    }

    /// Makes the read with this number fail, counted from 1 over all reads. 0 makes none fail.
    pub fn fail_at(&mut self, read: u64)
        ensures files { told_by self.new ≡ told_by self.old }
        ensures failed { failed_of self.new ≡ failed_of self.old }
        ensures failing { failing_of self.new ≡ Some read }
        ensures reads { reads_of self.new ≡ reads_of self.old }
    {
        self.fails_at = Some(read);
    }

    /// Reads a file, as `Files::read` does. Fails with `ReadFailed` exactly where this read is the
    /// one that is to fail, and only then is the name noted; `Memory` is out of memory. The count
    /// of reads stays at its greatest value once that is reached.
    pub fn read_next(&mut self, alloc: Global, name: &str) -> Result<Option<Vec<u8>>, FilesError>
        ensures files { told_by self.new ≡ told_by self.old }
        ensures failing { failing_of self.new ≡ failing_of self.old }
        ensures reads { reads_of self.new ≡ next_read self.old }
        ensures text { IfOk result (λ text. option_map (λ bytes. bytes.items) text ≡
            text_at (told_by self.old) name.now) }
        ensures fails { IsErrOf result ReadFailed ↔ IsToFail self.old }
        ensures noted { IsErrOf result ReadFailed →
            failed_of self.new ≡ name.now ∷ failed_of self.old }
        ensures ok { OnOk result (failed_of self.new ≡ failed_of self.old) }
        ensures memory { IsErrOf result Memory → failed_of self.new ≡ failed_of self.old }
    {
        self.reads = self.reads.saturating_add(1);
        let read = if self.fails_at == Some(self.reads) {
            Err(FilesError::ReadFailed)
        } else {
            copied(alloc, text_of(&self.files, name))
        };
        self.answered = self.answered.with(&Answer {
            name,
            result: &read,
        });
        read
    }
}

impl Files for MemFiles {
    ghost use Rattle.mk_read_parse.specs.MemFiles.{told_by, failed_of};

    ghost fits = { λ m told. told ≡ told_by m };

    ghost failed = { failed_of };

    ghost cause = { λ _. Other };

    fn read(&mut self, alloc: Global, name: &str) -> Result<Option<Vec<u8>>, FilesError> {
        self.read_next(alloc, name)
    }

    fn cause(&self) -> Cause {
        Cause::Other
    }
}
