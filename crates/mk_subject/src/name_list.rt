//! A list of names with a fast lookup.

ghost use Rattle.std.specs.Prelude.{◌≡◌, map};
ghost use Rattle.std.specs.String.{string_bytes};
ghost use Rattle.mk_lines.specs.Names.{has_name};

use mk_foot::contains_by_scan;
use mk_lines::{BorrowedNames, borrowed_set_of};
use std::alloc::{AllocError, Global};
use std::marker::Model;

/// A list of at most this many names is always searched linearly, and a longer one for its first
/// lookups up to this number: that costs no more than to make a set.
const FEW: usize = 4;

/// A list of names in which names are looked up: first by linear search, and after several lookups
/// in a long list through a set. Its model is the list.
#[derive(Drop)]
pub struct NameList<'a> {
    list: &'a [String],
    uses: usize,
    set: Option<Box<BorrowedNames<'a>>>,
}

impl<'a> Model for NameList<'a> {
    ghost use Rattle.std.specs.Prelude.{List, ℕ, map};
    ghost use Rattle.std.specs.String.{string_bytes};
    ghost use Rattle.mk_subject.specs.Lookup.{AreNamesOf};

    ghost Value = { List (List ℕ) };

    ghost view = { λ l. map string_bytes l.list.now };

    ghost invariant = { λ l. AreNamesOf (map string_bytes l.list.now) l.set };
}

impl<'a> NameList<'a> {
    /// Wraps a list. Doesn't allocate.
    pub fn new(list: &'a [String]) -> NameList<'a>
        ensures { result ≡ map string_bytes list.now }
    {
        NameList {
            list,
            uses: 0,
            set: None,
        }
    }

    /// Counts a lookup; once a long list has had more than a few, makes the set. Call it before
    /// `has`. The only error is out of memory.
    pub fn note_use(&mut self, alloc: Global) -> Result<(), AllocError>
        ensures { self.new ≡ self.old }
    {
        if self.list.len() <= FEW || self.set.is_some() {
            return Ok(());
        }
        if self.uses < FEW {
            self.uses += 1;
            return Ok(());
        }
        self.set = Some(Box::new(alloc, borrowed_set_of(alloc, self.list)?)?);
        Ok(())
    }

    /// Whether the name is in the list.
    pub fn has(&self, name: &str) -> bool
        ensures { result ≡ has_name self.now name.now }
    {
        match &self.set {
            Some(set) => set.contains(name),
            None => contains_by_scan(self.list, name),
        }
    }
}
