//! Readers of files, which a caller implements over a disk or over memory.

ghost use Rattle.std.specs.Prelude.{◌≡◌, ℕ, List, ◌∷◌, OnOk, IfOk, IsErrOf};
ghost use Rattle.std.specs.Option.{option_map};
ghost use Rattle.mk_read.specs.Files.{IfFits, Keeps, Told, text_at};
ghost use Rattle.mk_read_files.specs.declared.cause.Cause.{Cause};
ghost use Rattle.mk_read_files.specs.declared.files.FilesError.TheVariants.{Memory};

use crate::cause::Cause;
use std::alloc::{AllocError, Global};
use thiserror::Error;

/// Why a file was not read.
#[derive(Clone, Copy, Debug, PartialEq, Eq, Error)]
pub enum FilesError {
    /// Reading the file failed.
    #[error("read failed")]
    ReadFailed,
    /// Out of memory.
    #[error("out of memory")]
    Memory,
}

impl From<AllocError> for FilesError {
    ghost from_gives = { λ _ e. e ≡ Memory };

    fn from(_error: AllocError) -> FilesError {
        FilesError::Memory
    }
}

/// A reader of files. A contract says which maps from names to texts fit what the reader has
/// answered so far, and claims what it says of the texts for each of them.
pub trait Files {
    /// Whether a map fits: each text that was answered is the map's text of that name, and a name
    /// that was answered as missing has no text in it.
    ghost fits: { Self → Told → Type 0 };

    /// The names of the files whose reads failed, the last one first.
    ghost failed: { Self → List (List ℕ) };

    /// What is known of why the last read failed.
    ghost cause: { Self → Cause };

    /// The text of a file, or `None` where the file doesn't exist. Fails with `ReadFailed`, where
    /// its name is noted, or with `Memory`, out of memory, where nothing is.
    fn read(&mut self, alloc: Global, name: &str) -> Result<Option<Vec<u8>>, FilesError>
        ensures keeps { Keeps (fits self.old) (fits self.new) }
        ensures text { IfOk result (λ text. IfFits (fits self.new)
            (λ told. option_map (λ bytes. bytes.items) text ≡ text_at told name.now)) }
        ensures ok { OnOk result (failed self.new ≡ failed self.old) }
        ensures memory { IsErrOf result FilesError.Memory → failed self.new ≡ failed self.old }
        ensures noted { IsErrOf result FilesError.ReadFailed
            → failed self.new ≡ name.now ∷ failed self.old };

    /// What is known of why the last read failed; anything where none did.
    fn cause(&self) -> Cause
        ensures { result ≡ cause self.now };
}
