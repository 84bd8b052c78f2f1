//! A small set of names.

ghost use Rattle.std.specs.Prelude.{◌≡◌, [], not, IfOk, OnOk};
ghost use Rattle.mk_lines.specs.Names.{has_name, with_name};
ghost use Rattle.mk_cert.specs.Seen.{names_in};

use mk_lines::BorrowedNames;
use std::alloc::{AllocError, Global};
use std::marker::Model;

/// A set of names, in the order of insertion. Most sets have at most one name, which is stored
/// inline without an allocation. Its model is the list of names.
#[derive(Drop)]
pub struct SeenNames<'a> {
    /// The first name.
    first: Option<&'a str>,
    /// All later ones.
    others: Option<Box<BorrowedNames<'a>>>,
}

impl<'a> Model for SeenNames<'a> {
    ghost use Rattle.std.specs.Prelude.{List, ℕ};
    ghost use Rattle.mk_cert.specs.Seen.{names_seen};

    ghost Value = { List (List ℕ) };

    ghost view = { λ s. names_seen s.first s.others };
}

/// Adds a name to a set, which is made if there is none yet. Returns whether it was new.
fn insert_into<'a>(
    alloc: Global,
    set: &mut Option<Box<BorrowedNames<'a>>>,
    name: &'a str,
) -> Result<bool, AllocError>
    ensures new { IfOk result (λ added. added ≡
        not (has_name (names_in set.old) name.entry.now)) }
    ensures ok { OnOk result (names_in set.new ≡ with_name (names_in set.old) name.entry.now) }
{
    if let Some(set) = set {
        return set.insert(name);
    }
    let mut names = BorrowedNames::new(alloc);
    let is_new = names.insert(name)?;
    *set = Some(Box::new(alloc, names)?);
    Ok(is_new)
}

impl<'a> SeenNames<'a> {
    /// The empty set. Doesn't allocate.
    pub fn new() -> SeenNames<'a>
        ensures { result ≡ [] }
    {
        SeenNames {
            first: None,
            others: None,
        }
    }

    /// Appends a name, unless it is in the set already. Returns whether it was new. The only error
    /// is out of memory.
    pub fn insert(&mut self, alloc: Global, name: &'a str) -> Result<bool, AllocError>
        ensures new { IfOk result (λ added. added ≡ not (has_name self.old name.entry.now)) }
        ensures ok { OnOk result (self.new ≡ with_name self.old name.entry.now) }
    {
        let Some(first) = self.first else {
            self.first = Some(name);
            self.others = None;
            return Ok(true);
        };
        if first == name {
            return Ok(false);
        }
        insert_into(alloc, &mut self.others, name)
    }

    /// Whether the name is in the set. Doesn't allocate.
    pub fn contains(&self, name: &str) -> bool
        ensures { result ≡ has_name self.now name.now }
    {
        let Some(first) = self.first else {
            return false;
        };
        if first == name {
            return true;
        }
        match &self.others {
            Some(others) => others.contains(name),
            None => false,
        }
    }
}
