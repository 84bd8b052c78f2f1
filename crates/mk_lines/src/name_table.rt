//! Tables of names.

ghost use Rattle.std.specs.Prelude.{◌≡◌, ◌<◌, ℕ, List, true, false, length, map, IfOk, IfSome, MatchOption};
ghost use Rattle.std.specs.String.{string_bytes};
ghost use Rattle.mk_lines.specs.Names.{has_name, place_from};
ghost use Rattle.mk_lines.specs.Places.{place_in};

use crate::name_places::NamePlaces;
use std::alloc::{AllocError, Global};
use std::marker::Model;
use std::str;

/// A list of names with an index for lookups, seen by contracts as the list of names.
#[derive(Drop)]
pub struct NameTable {
    names: Vec<String>,
    places: NamePlaces,
}

impl Model for NameTable {
    ghost use Rattle.std.specs.Prelude.{◌≡◌, List, ℕ, map};
    ghost use Rattle.std.specs.String.{string_bytes};
    ghost use Rattle.mk_lines.specs.Names.{place_from};
    ghost use Rattle.mk_lines.specs.Places.{place_in};

    ghost Value = { List (List ℕ) };

    ghost view = { λ t. map string_bytes t.names.items };

    ghost invariant = { λ t. (q : List ℕ) →
        place_in t.places q ≡ place_from 0 (map string_bytes t.names.items) q };
}

impl NameTable {
    /// The table of these names, in the same order. The only error is out of memory.
    pub fn new(alloc: Global, names: Vec<String>) -> Result<NameTable, AllocError>
        ensures { IfOk result (λ table. table ≡ map string_bytes names.items) }
    {
        let places = places_of(alloc, &names)?;
        Ok(NameTable { names, places })
    }

    /// The index where a name first stands, or `None` where the table lacks it. Allocates nothing.
    pub fn place(&self, name: &str) -> Option<usize>
        ensures place { result ≡ place_from 0 self.now name.now }
        ensures within { IfSome result (λ place. place < length self.now) }
    {
        self.places.place(name)
    }

    /// The table's own copy of the name, or `None` where the table lacks it. Allocates nothing.
    pub fn get(&self, name: &str) -> Option<&str>
        ensures { MatchOption result (has_name self.now name.now ≡
            false) (λ found. (found.now ≡ name.now) × (has_name self.now name.now ≡ true)) }
    {
        match self.place(name) {
            Some(place) => Some(self.as_slice()[place].as_str()),
            None => None,
        }
    }

    /// Whether the table has the name. Allocates nothing.
    pub fn contains(&self, name: &str) -> bool
        ensures { result ≡ has_name self.now name.now }
    {
        self.places.contains(name)
    }

    /// Whether the table has the name with these bytes. Allocates nothing.
    pub fn contains_bytes(&self, bytes: &[u8]) -> bool
        ensures { result ≡ has_name self.now bytes.now }
    {
        let places = &self.places;
        match str::from_utf8(bytes) {
            Ok(name) => places.contains(name),
            Err(_) => false,
        }
    }

    /// The names, in order.
    pub fn as_slice(&self) -> &[String]
        ensures { map string_bytes result.now ≡ self.now }
    {
        self.names.as_slice()
    }
}

/// The index where each name first stands.
fn places_of(alloc: Global, names: &[String]) -> Result<NamePlaces, AllocError>
    ensures { IfOk result (λ places. (q : List ℕ) →
        place_in places q ≡ place_from 0 (map string_bytes names.now) q) }
{
    let mut places = NamePlaces::with_capacity(alloc, names.len())?;
    for (i, name) in names.iter().enumerate() {
        places.note(alloc, name.as_str(), i)?;
    }
    Ok(places)
}
