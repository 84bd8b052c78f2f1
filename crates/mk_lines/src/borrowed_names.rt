//! Sets of borrowed names, in order of insertion.

ghost use Rattle.std.specs.Prelude.{◌≡◌, [], true, false, not, map, fold, IfOk, MatchOption, OnOk, OnErr};
ghost use Rattle.std.specs.String.{string_bytes};
ghost use Rattle.mk_lines.specs.Names.{HoldsNames, has_name, number_of, with_name};

use indexmap::IndexSet;
use std::alloc::{AllocError, Global};
use std::marker::Model;

/// A set of borrowed names, in order of insertion, seen by contracts as a list of names without
/// repetition.
#[derive(Drop)]
pub struct BorrowedNames<'a> {
    names: IndexSet<&'a str>,
}

impl<'a> Model for BorrowedNames<'a> {
    ghost use Rattle.std.specs.Prelude.{List, ℕ, map};

    ghost Value = { List (List ℕ) };

    ghost view = { λ s. map (λ name. name.now) s.names.keys };
}

impl<'a> BorrowedNames<'a> {
    /// The empty set.
    pub fn new(alloc: Global) -> BorrowedNames<'a>
        ensures { result ≡ [] }
    {
        BorrowedNames {
            names: IndexSet::new(alloc),
        }
    }

    /// The empty set, with room for `count` names. The only error is out of memory.
    pub fn with_capacity(alloc: Global, count: usize) -> Result<BorrowedNames<'a>, AllocError>
        ensures { IfOk result (λ set. set ≡ []) }
    {
        Ok(BorrowedNames {
            names: IndexSet::with_capacity(alloc, count)?,
        })
    }

    /// Adds a name at the end, unless the set has it. Returns whether it was new. The only error is
    /// out of memory; the set is then unchanged.
    pub fn insert(&mut self, name: &'a str) -> Result<bool, AllocError>
        ensures new { IfOk result (λ added. added ≡ not (has_name self.old name.entry.now)) }
        ensures ok { OnOk result (self.new ≡ with_name self.old name.entry.now) }
        ensures err { OnErr result (self.new ≡ self.old) }
    {
        Ok(self.names.insert(name)?)
    }

    /// Adds each of the names in turn. The only error is out of memory; the set may then hold some
    /// of them.
    pub fn insert_all(&mut self, names: &'a [String]) -> Result<(), AllocError>
        ensures { OnOk result (self.new ≡
            fold with_name self.old (map string_bytes names.entry.now)) }
    {
        for name in names {
            self.insert(name.as_str())?;
        }
        Ok(())
    }

    /// The name in the set that equals this one, or `None` where the set lacks it. Allocates
    /// nothing.
    pub fn get(&self, name: &str) -> Option<&'a str>
        ensures { MatchOption result (has_name self.now name.now ≡ false)
            (λ found. (found.now ≡ name.now) × (has_name self.now name.now ≡ true)) }
    {
        match self.names.get(name) {
            Some(found) => Some(*found),
            None => None,
        }
    }

    /// Whether the set has the name. Allocates nothing.
    pub fn contains(&self, name: &str) -> bool
        ensures { result ≡ has_name self.now name.now }
    {
        self.names.contains(name)
    }

    /// The index of the name, or the number of names where the set lacks it. Allocates nothing.
    pub fn number_of(&self, name: &str) -> usize
        ensures { result ≡ number_of self.now name.now }
    {
        match self.names.get_index_of(name) {
            Some(number) => number,
            None => self.names.len(),
        }
    }

    /// The names, in order of insertion.
    pub fn as_slice(&self) -> &[&'a str]
        ensures { map (λ name. name.now) result.now ≡ self.now }
    {
        self.names.as_slice()
    }
}

/// The set of the names of a list. The only error is out of memory.
pub fn borrowed_set_of<'a>(
    alloc: Global,
    names: &'a [String],
) -> Result<BorrowedNames<'a>, AllocError>
    ensures { IfOk result (λ set. HoldsNames set (map string_bytes names.now)) }
{
    let mut set = BorrowedNames::new(alloc);
    set.insert_all(names)?;
    Ok(set)
}
