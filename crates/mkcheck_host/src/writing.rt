//! Writes a text to its end.

ghost use Rattle.std.specs.Prelude.{◌≡◌, OnErr, OnOk};
ghost use Rattle.std.specs.Io.KnownBytes.{Appends};
ghost use Rattle.mkcheck_host.specs.Ending.{AppendsPart};
ghost use Rattle.mkcheck_host.specs.Writing.{next_failure};

use crate::sink::{Sink, WriteFailed};
use std::io::Write;

/// Writes the whole text. Fails at the first write that fails, also where it is interrupted, or
/// that writes no bytes; then a part of the text has been written, but not all of it.
pub fn emit<W: Write>(sink: &mut Sink<W>, text: &[u8]) -> Result<(), WriteFailed>
    ensures whole { OnOk result (Appends (W.contents sink.old.writer)
        (W.contents sink.new.writer) text.now) }
    ensures part { OnErr result
        (AppendsPart (W.contents sink.old.writer) (W.contents sink.new.writer) text.now) }

    // No write is tried again.
    ensures ok { OnOk result (sink.new.failures ≡ sink.old.failures) }
    ensures failed { OnErr result (sink.new.failures ≡ next_failure sink.old.failures) }
{
    let mut done = 0;
    while done < text.len() {
        done += sink.write(&text[done..])?;
    }
    Ok(())
}
