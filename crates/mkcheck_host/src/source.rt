//! A reader with a limited number of reads.

ghost use Rattle.std.specs.Prelude.{◌≡◌, ◌≢◌, ◌↔◌, ◌-◌, false, true, IfErr, OnOk};
ghost use Rattle.std.specs.Io.{ReadsAtMost};
ghost use Rattle.std.specs.Io.KnownBytes.{ReadConsumes};
ghost use Rattle.std.specs.IoError.{error_kind};
ghost use Rattle.mkcheck_host.specs.Causes.{cause_in};
ghost use Rattle.mkcheck_host.specs.Reading.{max_reads};

use crate::causes::cause_of;
use mk_read_files::Cause;
use std::io;
use std::io::{ErrorKind, Read};

/// A reader, the number of reads that are still allowed, and whether a read has failed.
#[derive(Drop)]
pub struct Source<R> {
    reader: R,
    reads_left: u32,
    failed: bool,
    cause: Cause,
}

impl<R: Read> Source<R> {
    /// A source over this reader, with 16,777,217 reads allowed and none failed.
    pub fn new(reader: R) -> Source<R>
        ensures reader { result.reader ≡ reader }
        ensures reads { result.reads_left ≡ max_reads }
        ensures failed { result.failed ≡ false }
    {
        Source {
            reader,
            reads_left: 16_777_217,
            failed: false,
            cause: Cause::Other,
        }
    }

    /// Why the source wasn't read to its end, where it wasn't: what the last failed read says; else
    /// it is too large, if further reads are allowed.
    pub fn cause(&self) -> Cause
        ensures { result ≡ cause_in self.now }
    {
        if self.failed {
            self.cause
        } else if self.is_spent() {
            Cause::Other
        } else {
            Cause::TooLarge
        }
    }

    /// Whether no further read is allowed.
    pub fn is_spent(&self) -> bool
        ensures { result ≡ true ↔ self.now.reads_left ≡ 0 }
    {
        self.reads_left == 0
    }

    /// Reads once into the buffer, and uses up one of the allowed reads. An error other than
    /// `Interrupted` counts as a failed read.
    pub fn read(&mut self, buf: &mut [u8]) -> io::Result<usize>
        ensures bound { ReadsAtMost result buf.new }
        ensures bytes { ReadConsumes (R.remaining self.old.reader) (R.remaining self.new.reader)
            result buf.new }
        ensures reads { self.new.reads_left ≡ self.old.reads_left - 1 }
        ensures ok { OnOk result (self.new.failed ≡ self.old.failed) }
        ensures interrupted { IfErr result (λ error. error_kind error ≡ ErrorKind.Interrupted
            → self.new.failed ≡ self.old.failed) }
        ensures failed { IfErr result (λ error. error_kind error ≢ ErrorKind.Interrupted
            → self.new.failed ≡ true) }
    {
        self.reads_left = self.reads_left.saturating_sub(1);
        let read = self.reader.read(buf);
        if let Err(error) = &read {
            if error.kind() != ErrorKind::Interrupted {
                self.failed = true;
                self.cause = cause_of(error.kind());
            }
        }
        read
    }
}
