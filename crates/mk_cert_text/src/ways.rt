//! Lists of ways.

ghost use Rattle.std.specs.Prelude.{◌≡◌, ◌==◌, ◌<◌, ◌∷◌, ◌++◌, [], List, ℕ, length, slice_index_or, IfOk, OnErr, OnOk};

use crate::certificate::{Finish, Way};
use crate::packed_names::PackedNames;
use crate::path::Path;
use std::alloc::{AllocError, Global};
use std::marker::Model;

/// The place of a way's names among those of all ways: its recipe, its file, its path.
#[derive(Clone, Copy, Debug, Drop)]
struct WayPlace {
    start: usize,
    end: usize,
    finish: Finish,
}

/// A list of ways, whose names are stored in a single text. A contract sees a list of ways.
///
/// A certificate may have some 300,000 ways. With strings of their own they would take four times
/// the memory, and five allocations each.
#[derive(Debug, Drop)]
pub struct Ways {
    names: PackedNames,
    places: Vec<WayPlace>,
}

impl Model for Ways {
    ghost use Rattle.std.specs.Prelude.{List, map, length};
    ghost use Rattle.std.specs.List.{All};
    ghost use Rattle.mk_cert_text.specs.Certificate as value;
    ghost use Rattle.mk_cert_text.specs.Packing.{way_at, IsWithin};

    ghost Value = { List value.Way };

    ghost view = { λ w. map (way_at w.names) w.places.items };

    ghost invariant = { λ w. All (IsWithin (length w.names)) w.places.items };
}

/// Appends the names of a way.
fn push_names(
    names: &mut PackedNames,
    recipe: &str,
    file: &str,
    path: &PackedNames,
) -> Result<(), AllocError>
    ensures ok { OnOk result (names.new ≡ names.old ++ recipe.now ∷ file.now ∷ path.now) }
    ensures grows { (more : List (List ℕ)) × (names.new ≡ names.old ++ more) }
{
    names.push(recipe)?;
    names.push(file)?;
    names.push_all(path)
}

impl Ways {
    /// Returns an empty list.
    pub fn new(alloc: Global) -> Ways
        ensures { result ≡ [] }
    {
        Ways {
            names: PackedNames::new(alloc),
            places: Vec::new(alloc),
        }
    }

    /// Returns an empty list with capacity for this many ways whose paths have two recipes, with
    /// names of eight bytes. The only error is out of memory.
    pub fn with_capacity(alloc: Global, ways: usize) -> Result<Ways, AllocError>
        ensures { IfOk result (λ ways. ways ≡ []) }
    {
        let names = ways.saturating_mul(4);
        Ok(Ways {
            names: PackedNames::with_capacity(alloc, names, names.saturating_mul(8))?,
            places: Vec::with_capacity(alloc, ways)?,
        })
    }

    /// Appends a way. The only error is out of memory, which leaves the list unchanged.
    pub fn push(
        &mut self,
        recipe: &str,
        file: &str,
        path: &PackedNames,
        finish: Finish,
    ) -> Result<(), AllocError>
        ensures ok { OnOk result (self.new ≡ self.old ++ record {
          recipe = recipe.now;
          file = file.now;
          path = path.now;
          finish = finish;
        } ∷ []) }
        ensures err { OnErr result (self.new ≡ self.old) }
    {
        let start = self.names.len();
        push_names(&mut self.names, recipe, file, path)?;
        let end = self.names.len();
        self.places.push(WayPlace { start, end, finish })?;
        Ok(())
    }

    /// Returns the number of ways.
    pub fn len(&self) -> usize
        ensures { result ≡ length self.now }
    {
        self.places.len()
    }

    /// Whether the list is empty.
    pub fn is_empty(&self) -> bool
        ensures { result ≡ (length self.now == 0) }
    {
        self.len() == 0
    }

    /// Returns the way at a place.
    pub fn at(&self, place: usize) -> Way<'_>
        requires { place < length self.now }
        ensures { result ≡ slice_index_or self.now place result }
    {
        let WayPlace { start, end, finish } = self.places[place];
        Way {
            recipe: self.names.at(start),
            file: self.names.at(start + 1),
            path: Path::among(&self.names, start + 2, end),
            finish,
        }
    }
}
