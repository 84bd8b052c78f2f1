//! Paths of recipes, borrowed from a list of names.

ghost use Rattle.std.specs.Prelude.{◌≡◌, ◌==◌, ◌<◌, ◌≤◌, [], length, slice_index_or, slice_range};

use crate::packed_names::PackedNames;
use std::marker::Model;

/// The names of recipes, in order. A contract sees a list of lists of bytes.
#[derive(Debug, Drop)]
pub struct Path<'a> {
    names: &'a PackedNames,
    start: usize,
    end: usize,
}

impl<'a> Model for Path<'a> {
    ghost use Rattle.std.specs.Prelude.{◌≤◌, List, ℕ, length, slice_range};

    ghost Value = { List (List ℕ) };

    ghost view = { λ p. slice_range p.names.now p.start p.end };

    ghost invariant = { λ p. (p.start ≤ p.end) × (p.end ≤ length p.names.now) };
}

impl<'a> Path<'a> {
    /// Returns the names from place `start` to before place `end`.
    pub(crate) fn among(names: &'a PackedNames, start: usize, end: usize) -> Path<'a>
        requires order { start ≤ end }
        requires within { end ≤ length names.now }
        ensures { result ≡ slice_range names.entry.now start end }
    {
        Path { names, start, end }
    }

    /// Returns the number of names.
    pub fn len(&self) -> usize
        ensures { result ≡ length self.now }
    {
        self.end - self.start
    }

    /// Whether the path is empty.
    pub fn is_empty(&self) -> bool
        ensures { result ≡ (length self.now == 0) }
    {
        self.len() == 0
    }

    /// Returns the name at a place.
    pub fn at(&self, place: usize) -> &'a str
        requires { place < length self.now }
        ensures { result.now ≡ slice_index_or self.now place [] }
    {
        let _count = self.names.len();
        self.names.at(self.start + place)
    }
}
