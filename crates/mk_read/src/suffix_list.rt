//! Lists of suffixes.

ghost use Rattle.std.specs.Prelude.{◌≡◌, ◌++◌, [], true, map, IfOk};
ghost use Rattle.std.specs.List.{list_all};
ghost use Rattle.std.specs.String.{string_bytes};
ghost use Rattle.mk_read.specs.Names.{once};
ghost use Rattle.mk_read.specs.Special.{is_suffix};

use crate::name_set::NameSet;
use std::alloc::{AllocError, Global};
use std::marker::Model;

/// A set of suffixes, in order of insertion, seen by contracts as a list of suffixes.
#[derive(Drop)]
pub struct SuffixList {
    names: NameSet,
}

impl Model for SuffixList {
    ghost use Rattle.std.specs.Prelude.{◌≡◌, List, ℕ, true};
    ghost use Rattle.std.specs.List.{list_all};
    ghost use Rattle.mk_read.specs.Special.{is_suffix};

    ghost Value = { List (List ℕ) };

    ghost view = { λ s. s.names };

    ghost invariant = { λ s. list_all is_suffix s.names ≡ true };
}

impl SuffixList {
    /// The empty list.
    pub fn new(alloc: Global) -> SuffixList
        ensures { result ≡ [] }
    {
        SuffixList {
            names: NameSet::new(alloc),
        }
    }

    /// The list with these suffixes added in order, each unless it is there. The only error is out
    /// of memory.
    pub fn with_all(self, alloc: Global, words: &[String]) -> Result<SuffixList, AllocError>
        requires { list_all is_suffix (map string_bytes words.now) ≡ true }
        ensures { IfOk result (λ all. all ≡ once (self ++ map string_bytes words.now)) }
    {
        let SuffixList { names } = self;
        Ok(SuffixList {
            names: names.with_all(alloc, words)?,
        })
    }

    /// The suffixes, in order.
    pub fn as_slice(&self) -> &[String]
        ensures exact { map string_bytes result.now ≡ self.now }
        ensures suffixes { list_all is_suffix self.now ≡ true }
    {
        self.names.as_slice()
    }
}
