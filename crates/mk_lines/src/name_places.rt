//! Maps from names to places in a list.

ghost use Rattle.std.specs.Prelude.{◌≡◌, ℕ, List, [], is_some, IfOk, OnOk};
ghost use Rattle.std.specs.HashMap.{get_by_text};
ghost use Rattle.std.specs.Str.{bytes_eq};
ghost use Rattle.mk_lines.specs.Names.{else_last};
ghost use Rattle.mk_lines.specs.Places.{place_in};

use indexmap::IndexMap;
use std::alloc::{AllocError, Global};
use std::marker::Model;

/// A map from each name of a list to the index where it first stands. It doesn't keep the list. A
/// contract sees a list of pairs of name and index.
#[derive(Drop)]
pub struct NamePlaces {
    places: IndexMap<String, usize>,
}

impl Model for NamePlaces {
    ghost use Rattle.std.specs.Prelude.{List, ℕ, map};
    ghost use Rattle.std.specs.String.{string_bytes};

    ghost Value = { List (List ℕ × ℕ) };

    ghost view = { λ p. map (λ entry. (string_bytes entry.0, entry.1)) p.places.entries };
}

impl NamePlaces {
    /// An empty map with room for `count` names. The only error is out of memory.
    pub fn with_capacity(alloc: Global, count: usize) -> Result<NamePlaces, AllocError>
        ensures { IfOk result (λ places. places ≡ []) }
    {
        Ok(NamePlaces {
            places: IndexMap::with_capacity(alloc, count)?,
        })
    }

    /// Records the place of a name, unless the name already has one. The only error is out of
    /// memory.
    pub fn note(&mut self, alloc: Global, name: &str, place: usize) -> Result<(), AllocError>
        ensures { OnOk result ((other : List ℕ) →
            place_in self.new other ≡
            else_last (place_in self.old other) (bytes_eq other name.now) place) }
    {
        note_place(alloc, &mut self.places, name, place)?;
        Ok(())
    }

    /// The place of a name, or `None` where it has none. Allocates nothing.
    pub fn place(&self, name: &str) -> Option<usize>
        ensures { result ≡ place_in self.now name.now }
    {
        self.places.get(name).copied()
    }

    /// Whether a name has a place. Allocates nothing.
    pub fn contains(&self, name: &str) -> bool
        ensures { result ≡ is_some (place_in self.now name.now) }
    {
        self.places.contains_key(name)
    }
}

fn note_place(
    alloc: Global,
    places: &mut IndexMap<String, usize>,
    name: &str,
    place: usize,
) -> Result<(), AllocError>
    ensures { OnOk result ((other : List ℕ) →
        get_by_text places.new other ≡
        else_last (get_by_text places.old other) (bytes_eq other name.now) place) }
{
    let key = String::from_str(alloc, name)?;
    let _place = places.entry(key)?.or_insert(place);
    Ok(())
}
