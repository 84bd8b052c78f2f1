//! A writer that counts failed writes.

ghost use Rattle.std.specs.Prelude.{◌≡◌, ◌<◌, ◌≤◌, length, IfOk, OnErr, OnOk};
ghost use Rattle.std.specs.Io.KnownBytes.{WriteAppends};
ghost use Rattle.mkcheck_host.specs.Writing.{next_failure};

use std::io::{ErrorKind, Write};

/// A write failed or wrote no bytes.
#[derive(Clone, Copy, Debug)]
pub struct WriteFailed {
    /// Whether nobody reads what is written any more, as at the end of a pipe that was closed.
    pub is_closed: bool,
}

/// A writer, and how many writes have failed.
#[derive(Drop)]
pub struct Sink<W> {
    writer: W,
    failures: u64,
}

impl<W> Sink<W> {
    /// The writer.
    pub fn into_writer(self) -> W
        ensures { result ≡ self.writer }
    {
        self.writer
    }
}

impl<W: Write> Sink<W> {
    /// A sink into this writer, to which no write has failed.
    pub fn new(writer: W) -> Sink<W>
        ensures writer { result.writer ≡ writer }
        ensures failures { result.failures ≡ 0 }
    {
        Sink {
            writer,
            failures: 0,
        }
    }

    /// Writes once, and gives the number of bytes that were written. Fails where the write fails,
    /// also where it is interrupted, or where it writes no bytes; only that counts as a failed
    /// write.
    pub fn write(&mut self, buf: &[u8]) -> Result<usize, WriteFailed>
        ensures some { IfOk result (λ n. 0 < n) }
        ensures bound { IfOk result (λ n. n ≤ length buf.now) }
        ensures bytes { WriteAppends (W.contents self.old.writer) (W.contents self.new.writer)
            result buf.now }
        ensures ok { OnOk result (self.new.failures ≡ self.old.failures) }
        ensures failed { OnErr result (self.new.failures ≡ next_failure self.old.failures) }
    {
        let is_closed = match self.writer.write(buf) {
            Ok(0) => false,
            Ok(n) => return Ok(n),
            Err(error) => matches!(error.kind(), ErrorKind::BrokenPipe),
        };
        self.failures = self.failures.saturating_add(1);
        Err(WriteFailed { is_closed })
    }
}
