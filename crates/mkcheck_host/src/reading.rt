//! Reads a source to its end.

ghost use Rattle.std.specs.Prelude.{◌≡◌, ◌≤◌, ◌+◌, ℕ, List, length, IfOk, IfSome, IsErrOf, OnOk, vec_len};
ghost use Rattle.std.specs.Io.KnownBytes.{Consumes, IsAtEnd};
ghost use Rattle.mkcheck_host.specs.Reading.{GaveUp, max_file};

use crate::source::Source;
use mk_read_files::FilesError;
use std::alloc::{AllocError, Global};
use std::io::{ErrorKind, Read};

/// The most bytes of a file.
const MAX_FILE: usize = 16_777_216;

const CHUNK: usize = 65_536;

/// The initial capacity of a text. Pages that aren't filled cost nothing, and most texts fit, so
/// they are never copied to a larger block.
const ROOM: usize = 4_194_304;

fn zeros(alloc: Global, count: usize) -> Result<Vec<u8>, AllocError>
    ensures { IfOk result (λ zeros. vec_len zeros ≡ count) }
{
    vec![in alloc; 0; count]
}

/// The bytes that a source has left. Fails with `ReadFailed` where a read fails, where more than
/// 16,777,216 bytes are left, or where the allowed number of reads is exceeded; or with `Memory`,
/// out of memory. An interrupted read is repeated.
pub fn slurp<R: Read>(alloc: Global, source: &mut Source<R>) -> Result<Vec<u8>, FilesError>
    ensures bytes { IfOk result (λ text. IfSome (R.remaining source.old.reader)
        (λ left. text.items ≡ left)) }
    ensures limit { IfOk result (λ text. vec_len text ≤ max_file) }
    ensures end { OnOk result (IsAtEnd (R.remaining source.new.reader)) }

    // Also on an error, at most one byte more than the limit is read.
    ensures taken { (bs : List ℕ) × (length bs ≤ max_file + 1)
        × Consumes (R.remaining source.old.reader) (R.remaining source.new.reader) bs }

    // A failed read gives `ReadFailed`, and nothing but the causes named above does.
    ensures whole { OnOk result (source.new.failed ≡ source.old.failed) }
    ensures memory { IsErrOf result FilesError.Memory → source.new.failed ≡ source.old.failed }
    ensures failed { IsErrOf result FilesError.ReadFailed
        → GaveUp R.remaining source.old source.new }
{
    let mut text = Vec::with_capacity(alloc, ROOM)?;
    let mut chunk = zeros(alloc, CHUNK)?;
    let window = chunk.as_mut_slice();
    while !source.is_spent() {
        let room = CHUNK.min(MAX_FILE + 1 - text.len());
        match source.read(&mut window[..room]) {
            Ok(0) => return Ok(text),
            Ok(n) => {
                text.extend_from_slice(&window[..n])?;
                if text.len() > MAX_FILE {
                    return Err(FilesError::ReadFailed);
                }
            }
            Err(error) => {
                if error.kind() != ErrorKind::Interrupted {
                    return Err(FilesError::ReadFailed);
                }
            }
        }
    }
    Err(FilesError::ReadFailed)
}
