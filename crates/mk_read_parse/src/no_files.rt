//! A reader without files.

ghost use Rattle.std.specs.Prelude.{◌≡◌, []};
ghost use Rattle.mk_read_files.specs.declared.cause.Cause.TheVariants.{Other};

use mk_read_files::{Cause, Files, FilesError};
use std::alloc::Global;

/// A reader without files: no file exists.
#[derive(Clone, Copy, Debug)]
pub(crate) struct NoFiles;

impl Files for NoFiles {
    ghost fits = { λ _ told. told ≡ [] };

    ghost failed = { λ _. [] };

    ghost cause = { λ _. Other };

    fn read(&mut self, _alloc: Global, _name: &str) -> Result<Option<Vec<u8>>, FilesError> {
        Ok(None)
    }

    fn cause(&self) -> Cause {
        Cause::Other
    }
}
