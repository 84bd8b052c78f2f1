//! Sets of names, in order of insertion.

ghost use Rattle.std.specs.Prelude.{◌≡◌, ◌++◌, [], map, IfOk, OnOk, OnErr};
ghost use Rattle.std.specs.String.{string_bytes};
ghost use Rattle.mk_read.specs.Names.{has_name, once, with_name};

use indexmap::IndexSet;
use std::alloc::{AllocError, Global};
use std::marker::Model;

/// A set of names, in order of insertion, seen by contracts as a list of names without repetition.
#[derive(Drop)]
pub struct NameSet {
    names: IndexSet<String>,
}

impl Model for NameSet {
    ghost use Rattle.std.specs.Prelude.{◌≡◌, List, ℕ, map};
    ghost use Rattle.std.specs.String.{string_bytes};
    ghost use Rattle.mk_read.specs.Names.{once};

    ghost Value = { List (List ℕ) };

    ghost view = { λ s. map string_bytes s.names.keys };

    ghost invariant = { λ s. once (map string_bytes s.names.keys) ≡ map string_bytes s.names.keys };
}

impl NameSet {
    /// The empty set.
    pub fn new(alloc: Global) -> NameSet
        ensures { result ≡ [] }
    {
        NameSet {
            names: IndexSet::new(alloc),
        }
    }

    /// Adds a name at the end, unless the set has it. The only error is out of memory; the set is
    /// then unchanged.
    pub fn insert(&mut self, name: String) -> Result<(), AllocError>
        ensures ok { OnOk result (self.new ≡ with_name self.old (string_bytes name)) }
        ensures err { OnErr result (self.new ≡ self.old) }
    {
        self.names.insert(name)?;
        Ok(())
    }

    /// The set with these names added in order. The only error is out of memory.
    pub fn with_all(self, alloc: Global, names: &[String]) -> Result<NameSet, AllocError>
        ensures { IfOk result (λ all. all ≡ once (self ++ map string_bytes names.now)) }
    {
        let NameSet { names: mut all } = self;
        for name in names {
            all.insert(String::from_str(alloc, name)?)?;
        }
        Ok(NameSet { names: all })
    }

    /// Whether the set has the name.
    pub fn contains(&self, name: &str) -> bool
        ensures { result ≡ has_name self.now name.now }
    {
        self.names.contains(name)
    }

    /// The names, in order of insertion.
    pub fn as_slice(&self) -> &[String]
        ensures { map string_bytes result.now ≡ self.now }
    {
        self.names.as_slice()
    }
}
