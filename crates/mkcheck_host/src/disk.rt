//! Reads files from the disk.

ghost use Rattle.std.specs.Prelude.{◌≡◌, ◌≢◌, ◌≤◌, None, Ok, Err, IfOk, IfSome, IsSomeAnd, vec_len};
ghost use Rattle.std.specs.IoError.{error_kind};
ghost use Rattle.mk_read_files.specs.Answers.{no_answers};
ghost use Rattle.mk_read_files.specs.Noted.{with_read};
ghost use Rattle.mkcheck_host.specs.Disk.{FitsDisk, IsReading, answers_of, failed_of};
ghost use Rattle.mkcheck_host.specs.Reading.{max_file};

use crate::causes::cause_of;
use crate::opener::Opener;
use crate::reading::slurp;
use crate::source::Source;
use mk_read_files::{Answer, Answered, Cause, Files, FilesError};
use std::alloc::Global;
use std::io;
use std::io::ErrorKind;

/// A reader of the files that an opener opens. A map fits it that agrees with all that was
/// answered. None does where a file changed between two reads of it.
#[derive(Drop)]
pub struct Disk<O> {
    opener: O,
    answered: Answered,
    /// What is known of why the last read failed.
    cause: Cause,
}

// The result for a file that can't be opened: `None` where it doesn't exist, `Memory` where memory
// ran out, and `ReadFailed` for any other error.
fn unopened(error: &io::Error) -> Result<Option<Vec<u8>>, FilesError>
    ensures missing { error_kind error.now ≡ ErrorKind.NotFound → result ≡ Ok None }
    ensures memory { error_kind error.now ≡ ErrorKind.OutOfMemory
        → result ≡ Err FilesError.Memory }
    ensures others { error_kind error.now ≢ ErrorKind.NotFound
        → error_kind error.now ≢ ErrorKind.OutOfMemory → result ≡ Err FilesError.ReadFailed }
{
    match error.kind() {
        ErrorKind::NotFound => Ok(None),
        ErrorKind::OutOfMemory => Err(FilesError::Memory),
        _ => Err(FilesError::ReadFailed),
    }
}

// The text of an opened file, read to its end. Where that fails, the cause is told.
fn opened<F: io::Read + Drop>(
    alloc: Global,
    file: F,
    cause: &mut Cause,
) -> Result<Option<Vec<u8>>, FilesError>
    ensures text { IfOk result (λ found. IsSomeAnd found
        (λ text. IfSome (F.remaining file) (λ left. text.items ≡ left))) }
    ensures limit { IfOk result (λ found. IfSome found (λ text. vec_len text ≤ max_file)) }
{
    let mut source = Source::new(file);
    match slurp(alloc, &mut source) {
        Ok(text) => Ok(Some(text)),
        Err(error) => {
            *cause = source.cause();
            Err(error)
        }
    }
}

impl<O> Disk<O> {
    /// A reader of the files that the opener opens, which has answered nothing yet.
    pub fn new(opener: O) -> Disk<O>
        ensures opener { result.opener ≡ opener }
        ensures answered { answers_of result ≡ no_answers }
    {
        Disk {
            opener,
            answered: Answered::new(),
            cause: Cause::Other,
        }
    }
}

impl<O: Opener> Disk<O> {
    /// The text of a file, or `None` where the file doesn't exist. Fails with `ReadFailed` where
    /// opening or reading the file fails otherwise, where it has more than 16,777,216 bytes, or
    /// where that takes too many reads; or with `Memory`, out of memory.
    pub fn read_file(&mut self, alloc: Global, name: &str) -> Result<Option<Vec<u8>>, FilesError>
        ensures answered { answers_of self.new ≡ with_read (answers_of self.old) name.now result }
        ensures limit { IfOk result (λ found. IfSome found (λ text. vec_len text ≤ max_file)) }

        // Where the opener tells what it holds under the name, the answer is that.
        ensures held { IfSome (O.holds self.old.opener name.now) (λ held. IsReading held result) }
    {
        let read = match self.opener.open(name) {
            Ok(file) => opened(alloc, file, &mut self.cause),
            Err(error) => {
                self.cause = cause_of(error.kind());
                unopened(&error)
            }
        };
        self.answered = self.answered.with(&Answer {
            name,
            result: &read,
        });
        read
    }
}

impl<O: Opener> Files for Disk<O> {
    ghost fits = { λ disk told. FitsDisk disk told };

    ghost failed = { λ disk. failed_of disk };

    ghost cause = { λ disk. disk.cause };

    fn read(&mut self, alloc: Global, name: &str) -> Result<Option<Vec<u8>>, FilesError> {
        self.read_file(alloc, name)
    }

    fn cause(&self) -> Cause {
        self.cause
    }
}
