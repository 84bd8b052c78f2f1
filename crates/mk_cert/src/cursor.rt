//! Guesses which read the next entry of a certificate is for.

ghost use Rattle.std.specs.Prelude.{IfSome};
ghost use Rattle.mk_cert.specs.Cursor.{IsReadOf};

use mk_subject::{Subject, Target};
use std::alloc::{AllocError, Global};

/// A recipe and a file that it reads.
#[derive(Drop)]
pub struct NamedRead<'s> {
    /// The number of the recipe.
    pub recipe: usize,
    /// The file.
    pub file: Target<'s>,
}

/// A guess at the read that the next entry is for: the unsettled read after that of the last right
/// guess. The entries that `check` writes are in that order, so each guess is right; an entry for
/// another read is looked up by name, and the guess stays. A guess is compared with the names in
/// the entry, so correctness doesn't depend on it.
#[derive(Drop)]
pub struct Cursor {
    /// The nodes whose recipes have unsettled reads, in the serial order.
    readers: Vec<usize>,
    /// An index into `readers`.
    reader: usize,
    /// An index into the unsettled reads of that node.
    read: usize,
}

impl Cursor {
    /// Starts at the first read. The only error is out of memory.
    pub fn new(alloc: Global, subject: &Subject<'_>) -> Result<Cursor, AllocError> {
        let mut readers = Vec::new(alloc);
        for entry in subject.entries() {
            if subject.count_of_unsettled(entry.number) > 0 {
                readers.push(entry.number)?;
            }
        }
        Ok(Cursor {
            readers,
            reader: 0,
            read: 0,
        })
    }

    /// Moves to the next read; `count` is how many the current node has.
    fn go_on(&mut self, count: usize) {
        self.read = self.read.saturating_add(1);
        if self.read >= count {
            self.read = 0;
            self.reader = self.reader.saturating_add(1);
        }
    }

    /// The current read, if it is that of this recipe and this file; then moves to the next one.
    pub fn found<'s>(
        &mut self,
        subject: &'s Subject<'_>,
        recipe: &str,
        file: &str,
    ) -> Option<NamedRead<'s>>
        ensures { IfSome result (λ found.
            IsReadOf subject.entry.now recipe.now file.now found.recipe found.file) }
    {
        let number = *self.readers.get(self.reader)?;
        let node = subject.graph().nodes().get(number)?;
        let count = subject.count_of_unsettled(number);
        if self.read >= count || node.name.as_str() != recipe {
            return None;
        }
        let target = subject.unsettled(number, self.read);
        if target.file != file {
            return None;
        }
        self.go_on(count);
        Some(NamedRead {
            recipe: number,
            file: target,
        })
    }
}
