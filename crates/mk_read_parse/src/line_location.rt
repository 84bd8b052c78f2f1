//! The location of a line that is being read.

ghost use Rattle.std.specs.Prelude.{◌≡◌, IfOk};
ghost use Rattle.mk_read_parse.specs.Views.{place_at};

use mk_lines::Name;
use mk_read::Place;
use std::alloc::{AllocError, Global};

/// The location of a line that is being read, and the allocator of what is read from it.
#[derive(Debug, Clone, Copy)]
pub(crate) struct LineLocation<'a> {
    /// The allocator.
    pub(crate) alloc: Global,
    /// The name of the line's file.
    pub(crate) file: &'a Name,
    /// The number of the line's first physical line, counted from 1.
    pub(crate) line: usize,
}

impl LineLocation<'_> {
    /// The location as a `Place` of its own.
    pub(crate) fn place(&self) -> Result<Place, AllocError>
        ensures { IfOk result (λ place. place ≡ place_at self.now) }
    {
        Ok(Place {
            file: self.file.clone()?,
            line: self.line,
        })
    }
}
