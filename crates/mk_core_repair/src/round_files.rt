//! The files that a round sees.

ghost use Rattle.std.specs.Prelude.{◌≡◌, ◌∷◌, [], IfErr, IfOk};
ghost use Rattle.std.specs.Option.{option_map};
ghost use Rattle.mk_read.specs.Files.{text_at};
ghost use Rattle.mk_core_repair.specs.Known.{known_by, seen_by};
ghost use Rattle.mk_read_files.specs.declared.files.FilesError.TheVariants.{Memory};
ghost use Rattle.mk_read_files.specs.declared.cause.Cause.TheVariants.{Other};

use crate::known_files::KnownFiles;
use mk_core::{Files, FilesError};
use mk_read_files::{Answer, Answered, Cause};
use std::alloc::Global;

/// The amended makefile and the other files that are known. A read of any other file fails.
#[derive(Drop)]
pub struct RoundFiles<'a> {
    pub makefile: &'a str,
    pub text: &'a [u8],
    pub known: &'a KnownFiles,
    answered: Answered,
}

/// A copy of the text.
fn copied(alloc: Global, text: &[u8]) -> Result<Option<Vec<u8>>, FilesError>
    ensures text { IfOk result (λ copy.
        option_map (λ bytes. bytes.items) copy ≡ Some text.now) }
    ensures memory { IfErr result (λ error. error ≡ Memory) }
{
    Ok(Some(Vec::from_slice(alloc, text)?))
}

impl<'a> RoundFiles<'a> {
    /// The files of a round: the makefile with this name has this text.
    pub fn new(makefile: &'a str, text: &'a [u8], known: &'a KnownFiles) -> RoundFiles<'a>
        ensures seen { seen_by result ≡ (makefile.now, text.now) ∷ known_by known.now }
    {
        RoundFiles {
            makefile,
            text,
            known,
            answered: Answered::new(),
        }
    }

    /// The text of a file, or `None` where it doesn't exist. Fails with `ReadFailed` for a file
    /// that isn't known, or with `Memory`, out of memory.
    fn text_of(&self, alloc: Global, name: &str) -> Result<Option<Vec<u8>>, FilesError>
        ensures { IfOk result (λ text. option_map (λ bytes. bytes.items) text ≡
            text_at (seen_by self.now) name.now) }
    {
        if self.makefile == name {
            return copied(alloc, self.text);
        }
        match self.known.text(name) {
            Some(text) => copied(alloc, text),
            None if self.known.names.contains(name) => Ok(None),
            None => Err(FilesError::ReadFailed),
        }
    }
}

impl Files for RoundFiles<'_> {
    ghost use Rattle.std.specs.Prelude.{◌≡◌};
    ghost use Rattle.mk_core_repair.specs.Known.{seen_by};

    ghost fits = { λ r told. told ≡ seen_by r };

    ghost failed = { λ r. r.answered.given.failed };

    ghost cause = { λ _. Other };

    fn read(&mut self, alloc: Global, name: &str) -> Result<Option<Vec<u8>>, FilesError> {
        let read = self.text_of(alloc, name);
        self.answered = self.answered.with(&Answer {
            name,
            result: &read,
        });
        read
    }

    fn cause(&self) -> Cause {
        Cause::Other
    }
}
