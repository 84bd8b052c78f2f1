//! Ends a run: writes its outcome, and gives the exit status.

ghost use Rattle.std.specs.Prelude.{◌≡◌, ◌≢◌};
ghost use Rattle.std.specs.IoError.{error_kind};
ghost use Rattle.std.specs.Process.{exit_status};
ghost use Rattle.mkcheck_host.specs.Ending.{Ends, said, status_of, streams, to_write, AppendsSome, failure_line};
ghost use Rattle.mkcheck_host.specs.declared.ending.Ending.{Ending};

use crate::outcome::Outcome;
use crate::sink::{Sink, WriteFailed};
use crate::writing::emit;
use std::io;
use std::io::{ErrorKind, Write};
use std::process::ExitCode;

/// The exit status after a fault of the command line, and after a failed write.
pub const FAULT: u8 = 2;

/// The exit status when memory ran out.
const NO_MEMORY: u8 = 3;

/// Why a run has no outcome.
#[derive(Clone, Copy, Debug)]
pub enum Stop {
    /// Out of memory.
    Memory,
    /// A word of the command line isn't UTF-8.
    Words,
}

/// Whether the outcome of a run was written.
#[derive(Clone, Copy, Debug)]
pub enum Ending {
    /// Both texts were written; this is the exit status of the run.
    Complete(u8),
    /// A write failed before all was written.
    WriteFailed,
}

impl Stop {
    /// Why the words of the command line can't be read, for this error.
    pub fn of(error: &io::Error) -> Stop
        ensures memory { error_kind error.now ≡ ErrorKind.OutOfMemory → result ≡ Stop.Memory }
        ensures words { error_kind error.now ≢ ErrorKind.OutOfMemory → result ≡ Stop.Words }
    {
        match error.kind() {
            ErrorKind::OutOfMemory => Stop::Memory,
            _ => Stop::Words,
        }
    }

    // The line that standard error gets.
    fn line(self) -> &'static str
        ensures { result.now ≡ (said self).err }
    {
        match self {
            Stop::Memory => "want of memory\n",
            Stop::Words => "error: a word of the command line is not UTF-8\n",
        }
    }

    fn status(self) -> u8
        ensures { result ≡ (said self).status }
    {
        match self {
            Stop::Memory => NO_MEMORY,
            Stop::Words => FAULT,
        }
    }
}

impl Ending {
    /// The exit status of the process.
    pub fn status(self) -> u8
        ensures { result ≡ status_of self }
    {
        match self {
            Ending::Complete(status) => status,
            Ending::WriteFailed => FAULT,
        }
    }
}

// Writes to standard error that a write failed, as far as that can be written; nothing where nobody
// reads the text any more.
fn cut<E: Write>(err: &mut Sink<E>, failed: WriteFailed) -> Ending
    ensures ending { result ≡ Ending.WriteFailed }
    ensures line { AppendsSome (E.contents err.old.writer) (E.contents err.new.writer)
        failure_line }
{
    if !failed.is_closed {
        let _ = emit(err, b"write failed\n");
    }
    Ending::WriteFailed
}

// Writes a text to standard output, and then a message to standard error.
fn send<O: Write, E: Write>(
    out: &mut Sink<O>,
    err: &mut Sink<E>,
    text: &[u8],
    message: &[u8],
    status: u8,
) -> Ending
    ensures { let streams = streams (O.contents out.old.writer) (O.contents out.new.writer)
        (E.contents err.old.writer) (E.contents err.new.writer) in
        Ends streams (record { out = text.now; err = message.now; status = status }) result }
{
    if let Err(failed) = emit(out, text) {
        return cut(err, failed);
    }
    if let Err(failed) = emit(err, message) {
        return cut(err, failed);
    }
    Ending::Complete(status)
}

/// Writes the outcome of a run, or why it has none, and returns whether all was written.
pub fn end<O: Write, E: Write>(
    out: &mut Sink<O>,
    err: &mut Sink<E>,
    ran: &Result<Outcome, Stop>,
) -> Ending
    ensures { let streams = streams (O.contents out.old.writer) (O.contents out.new.writer)
        (E.contents err.old.writer) (E.contents err.new.writer) in
        Ends streams (to_write ran.now) result }
{
    match ran {
        Ok(outcome) => send(out, err, &outcome.out, &outcome.err, outcome.status),
        Err(stop) => send(out, err, b"", stop.line().as_bytes(), stop.status()),
    }
}

/// Writes the outcome of a run, or why it has none, and returns the exit status of the process:
/// that of the run where both texts were written, else 2.
pub fn conclude<O: Write, E: Write>(
    out: &mut Sink<O>,
    err: &mut Sink<E>,
    ran: &Result<Outcome, Stop>,
) -> ExitCode
    ensures { let streams = streams (O.contents out.old.writer) (O.contents out.new.writer)
        (E.contents err.old.writer) (E.contents err.new.writer) in
        (ending : Ending) × Ends streams (to_write ran.now) ending
        × (exit_status result ≡ status_of ending) }
{
    ExitCode::from(end(out, err, ran).status())
}
