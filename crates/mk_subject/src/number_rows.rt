//! Rows of numbers in one vector.

ghost use Rattle.std.specs.Prelude.{◌≡◌, ◌<◌, ◌∷◌, ◌++◌, [], length, slice_index_or, IfOk, OnOk};
ghost use Rattle.std.specs.List.{concat};

use std::alloc::{AllocError, Global};
use std::marker::Model;

/// Rows of numbers, stored one after another in one vector. Its model is a list of lists.
///
/// A row takes the room of its numbers and of its end index.
#[derive(Drop)]
pub struct NumberRows {
    numbers: Vec<usize>,
    ends: Vec<usize>,
}

impl Model for NumberRows {
    ghost use Rattle.std.specs.Prelude.{List, ℕ};
    ghost use Rattle.mk_cert_text.specs.Packing.{cut_from};
    ghost use Rattle.mk_subject.specs.NumberRows.{AreRows};

    ghost Value = { List (List ℕ) };

    ghost view = { λ r. cut_from 0 r.ends.items r.numbers.items };

    ghost invariant = { λ r. AreRows r.ends.items r.numbers.items };
}

/// The index at which a row begins: the end of the row before.
fn start_of(ends: &[usize], place: usize) -> usize
    requires { place < length ends.now }
    ensures { result ≡ slice_index_or (0 ∷ ends.now) place 0 }
{
    match place {
        0 => 0,
        _ => ends[place - 1],
    }
}

impl NumberRows {
    /// No rows, with capacity for `rows` of them. The only error is out of memory.
    pub fn with_capacity(alloc: Global, rows: usize) -> Result<NumberRows, AllocError>
        ensures { IfOk result (λ rows. rows ≡ []) }
    {
        Ok(NumberRows {
            numbers: Vec::new(alloc),
            ends: Vec::with_capacity(alloc, rows)?,
        })
    }

    /// Appends a row. The only error is out of memory.
    pub fn push(&mut self, row: &[usize]) -> Result<(), AllocError>
        ensures { OnOk result (self.new ≡ self.old ++ row.now ∷ []) }
    {
        // Reserve room for the end index first, so that a failure leaves no numbers without one.
        self.ends.reserve(1)?;
        self.numbers.extend_from_slice(row)?;
        self.ends.push(self.numbers.len())?;
        Ok(())
    }

    /// How many rows there are.
    pub fn len(&self) -> usize
        ensures { result ≡ length self.now }
    {
        self.ends.len()
    }

    /// How many numbers all rows have together.
    pub fn total(&self) -> usize
        ensures { result ≡ length (concat self.now) }
    {
        self.numbers.len()
    }

    /// The row at an index; empty where there is none.
    pub fn at(&self, place: usize) -> &[usize]
        ensures { result.now ≡ slice_index_or self.now place [] }
    {
        if place >= self.ends.len() {
            return &[];
        }
        let start = start_of(&self.ends, place);
        &self.numbers[start..self.ends[place]]
    }
}
