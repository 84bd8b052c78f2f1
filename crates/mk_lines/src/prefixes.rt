//! Sets of prefixes.

ghost use Rattle.std.specs.Prelude.{◌≡◌, ℕ, List, true, ◌&&◌, length, take, map, nat_eq, nat_le, IfOk};
ghost use Rattle.std.specs.List.{list_any};
ghost use Rattle.std.specs.String.{string_bytes};
ghost use Rattle.indexmap.specs.IndexSet.{contains};
ghost use Rattle.mk_lines.specs.Names.{has_name, begins_with_any};

use crate::name_table::NameTable;
use indexmap::IndexSet;
use std::alloc::{AllocError, Global};
use std::marker::Model;

/// A set of prefixes, looked up by the lengths that occur, seen by contracts as a list of names.
#[derive(Drop)]
pub struct Prefixes {
    table: NameTable,
    lengths: IndexSet<usize>,
}

impl Model for Prefixes {
    ghost use Rattle.std.specs.Prelude.{◌≡◌, List, ℕ, true, length, nat_eq};
    ghost use Rattle.indexmap.specs.IndexSet.{contains};
    ghost use Rattle.mk_lines.specs.Names.{has_name};

    ghost Value = { List (List ℕ) };

    ghost view = { λ p. p.table };

    ghost invariant = { λ p. (prefix : List ℕ) → has_name p.table prefix ≡ true →
        contains nat_eq p.lengths (length prefix) ≡ true };
}

/// The set of the names' lengths.
fn lengths_of(alloc: Global, names: &[String]) -> Result<IndexSet<usize>, AllocError>
    ensures { IfOk result (λ lengths. (name : List ℕ) →
        has_name (map string_bytes names.now) name ≡ true →
        contains nat_eq lengths (length name) ≡ true) }
{
    let mut lengths = IndexSet::new(alloc);
    for name in names {
        lengths.insert(name.len())?;
    }
    Ok(lengths)
}

/// Whether the table has a prefix of the name with one of these lengths.
fn has_prefix_of_length(table: &NameTable, lengths: &[usize], name: &[u8]) -> bool
    ensures { result ≡
        list_any (λ n. nat_le n (length name.now) &&
        has_name table.now (take n name.now)) lengths.now }
{
    for n in lengths {
        if *n <= name.len() && table.contains_bytes(&name[..*n]) {
            return true;
        }
    }
    false
}

impl Prefixes {
    /// The set of these prefixes. The only error is out of memory.
    pub fn new(alloc: Global, prefixes: Vec<String>) -> Result<Prefixes, AllocError>
        ensures { IfOk result (λ made. made ≡ map string_bytes prefixes.items) }
    {
        let lengths = lengths_of(alloc, &prefixes)?;
        Ok(Prefixes {
            table: NameTable::new(alloc, prefixes)?,
            lengths,
        })
    }

    /// Whether a name begins with one of the prefixes. It takes one lookup for each length that
    /// occurs, and allocates nothing.
    pub fn begins_with_any(&self, name: &str) -> bool
        ensures { result ≡ begins_with_any self.now name.now }
    {
        has_prefix_of_length(&self.table, self.lengths.as_slice(), name.as_bytes())
    }
}
