//! The writers of one file.

ghost use Rattle.std.specs.Prelude.{◌≡◌, ◌∷◌, ◌++◌, [], IfOk, OnOk};

use std::alloc::{AllocError, Global};
use std::marker::Model;

/// The numbers of the nodes that write a file. Nearly every file has one writer, which is stored
/// inline without an allocation. Its model is the list of numbers.
#[derive(Drop)]
pub struct FileWriters {
    /// The writer, if there is just one.
    one: Option<[usize; 1]>,
    /// Else all writers.
    more: Vec<usize>,
}

impl Model for FileWriters {
    ghost use Rattle.std.specs.Prelude.{List, ℕ, ◌≡◌, [], IfSome, unwrap_or};

    ghost Value = { List ℕ };

    ghost view = { λ w. unwrap_or w.one w.more.items };

    ghost invariant = { λ w. IfSome w.one (λ _. w.more.items ≡ []) };
}

impl FileWriters {
    /// No writers.
    pub fn new(alloc: Global) -> FileWriters
        ensures { result ≡ [] }
    {
        FileWriters {
            one: None,
            more: Vec::new(alloc),
        }
    }

    /// Copies a list of writers. The only error is out of memory.
    pub fn of(alloc: Global, numbers: &[usize]) -> Result<FileWriters, AllocError>
        ensures { IfOk result (λ writers. writers ≡ numbers.now) }
    {
        if let [number] = numbers {
            return Ok(FileWriters {
                one: Some([*number]),
                more: Vec::new(alloc),
            });
        }
        Ok(FileWriters {
            one: None,
            more: numbers.to_vec(alloc)?,
        })
    }

    /// Appends a writer. The only error is out of memory.
    pub fn push(&mut self, number: usize) -> Result<(), AllocError>
        ensures { OnOk result (self.new ≡ self.old ++ number ∷ []) }
    {
        if let Some(one) = self.one {
            self.more.push(one[0])?;
            self.one = None;
        } else if self.more.is_empty() {
            self.one = Some([number]);
            return Ok(());
        }
        self.more.push(number)?;
        Ok(())
    }

    /// The writers, in their order.
    pub fn as_slice(&self) -> &[usize]
        ensures { result.now ≡ self.now }
    {
        match &self.one {
            Some(one) => one,
            None => self.more.as_slice(),
        }
    }
}
