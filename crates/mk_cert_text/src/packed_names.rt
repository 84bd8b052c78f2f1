//! Lists of names that share one text.

ghost use Rattle.std.specs.Prelude.{◌≡◌, ◌==◌, ◌<◌, ◌∷◌, ◌++◌, [], List, ℕ, length, slice_index_or, IfOk, OnOk, OnErr};

use std::alloc::{AllocError, Global};
use std::marker::Model;

/// A list of names that are stored one after another in a single text. A contract sees a list of
/// lists of bytes.
///
/// A name takes its bytes and the place where it ends. Short names in strings of their own would
/// take ten times as much.
#[derive(Debug, Drop)]
pub struct PackedNames {
    text: String,
    ends: Vec<usize>,
}

impl Model for PackedNames {
    ghost use Rattle.std.specs.Prelude.{List, ℕ};
    ghost use Rattle.std.specs.String.{string_bytes};
    ghost use Rattle.mk_cert_text.specs.Packing.{cut_from, IsPacked};

    ghost Value = { List (List ℕ) };

    ghost view = { λ p. cut_from 0 p.ends.items (string_bytes p.text) };

    ghost invariant = { λ p. IsPacked p.ends.items (string_bytes p.text) };
}

/// The name at a place begins where the name before it ends.
fn start_of(ends: &[usize], place: usize) -> usize
    requires { place < length ends.now }
    ensures { result ≡ slice_index_or (0 ∷ ends.now) place 0 }
{
    match place {
        0 => 0,
        _ => ends[place - 1],
    }
}

impl PackedNames {
    /// Returns an empty list.
    pub fn new(alloc: Global) -> PackedNames
        ensures { result ≡ [] }
    {
        PackedNames {
            text: String::new(alloc),
            ends: Vec::new(alloc),
        }
    }

    /// Returns an empty list with capacity for `names` names of `bytes` bytes in all. The only
    /// error is out of memory.
    pub fn with_capacity(
        alloc: Global,
        names: usize,
        bytes: usize,
    ) -> Result<PackedNames, AllocError>
        ensures { IfOk result (λ names. names ≡ []) }
    {
        Ok(PackedNames {
            text: String::with_capacity(alloc, bytes)?,
            ends: Vec::with_capacity(alloc, names)?,
        })
    }

    /// Appends a name. The only error is out of memory, which leaves the list unchanged.
    pub fn push(&mut self, name: &str) -> Result<(), AllocError>
        ensures ok { OnOk result (self.new ≡ self.old ++ name.now ∷ []) }
        ensures err { OnErr result (self.new ≡ self.old) }
    {
        let start = self.text.len();
        self.text.push_str(name)?;
        if let Err(error) = self.ends.push(self.text.len()) {
            self.text.truncate(start);
            return Err(error.into());
        }
        Ok(())
    }

    /// Appends names. The only error is out of memory; some of the names may have been appended
    /// then.
    pub fn push_all(&mut self, names: &PackedNames) -> Result<(), AllocError>
        ensures ok { OnOk result (self.new ≡ self.old ++ names.now) }
        ensures grows { (more : List (List ℕ)) × (self.new ≡ self.old ++ more) }
    {
        for place in 0..names.len() {
            self.push(names.at(place))?;
        }
        Ok(())
    }

    /// Removes all names and keeps the capacity.
    pub fn clear(&mut self)
        ensures { self.new ≡ [] }
    {
        self.text.clear();
        self.ends.clear();
    }

    /// Returns the number of names.
    pub fn len(&self) -> usize
        ensures { result ≡ length self.now }
    {
        self.ends.len()
    }

    /// Whether the list is empty.
    pub fn is_empty(&self) -> bool
        ensures { result ≡ (length self.now == 0) }
    {
        self.len() == 0
    }

    /// Returns the name at a place.
    pub fn at(&self, place: usize) -> &str
        requires { place < length self.now }
        ensures { result.now ≡ slice_index_or self.now place [] }
    {
        let start = start_of(&self.ends, place);
        &self.text[start..self.ends[place]]
    }
}
