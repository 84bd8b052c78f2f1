//! Borrowed names, with a lookup.

ghost use Rattle.std.specs.Prelude.{◌≡◌, ◌<◌, length, map, true, Some, None, IfOk, IfSome, OnOk};
ghost use Rattle.std.specs.Bool.{OnTrue, OnFalse};
ghost use Rattle.std.specs.String.{string_bytes};
ghost use Rattle.mk_lines.specs.Names.{has_name, place_from};
ghost use Rattle.mk_build.specs.World.{changed};
ghost use Rattle.mk_world.specs.Tables.{look};

use mk_lines::NameTable;
use std::alloc::{AllocError, Global};
use std::marker::Model;

/// Up to this many names, a lookup scans the list; for more names there is a table.
const FEW: usize = 16;

/// Borrowed names in order, with a lookup. Contracts see a list of names. Most recipes have few
/// files, for which there is no table.
#[derive(Drop)]
pub struct LentNames<'a> {
    names: &'a [String],
    table: Option<Box<NameTable>>,
}

impl<'a> Model for LentNames<'a> {
    ghost use Rattle.std.specs.Prelude.{◌≡◌, List, ℕ, map, IfSome};
    ghost use Rattle.std.specs.String.{string_bytes};

    ghost Value = { List (List ℕ) };

    ghost view = { λ l. map string_bytes l.names.now };

    ghost invariant = { λ l. IfSome l.table (λ table. table.value ≡ map string_bytes l.names.now) };
}

/// A table of these names. The only error is out of memory.
fn table_of(alloc: Global, names: &[String]) -> Result<NameTable, AllocError>
    ensures { IfOk result (λ table. table ≡ map string_bytes names.now) }
{
    let mut copies = Vec::with_capacity(alloc, names.len())?;
    for name in names {
        copies.push(name.clone()?)?;
    }
    NameTable::new(alloc, copies)
}

/// The first position of a name in the list.
fn place_among(names: &[String], name: &str) -> Option<usize>
    ensures place { result ≡ place_from 0 (map string_bytes names.now) name.now }
    ensures within { IfSome result (λ place. place < length (map string_bytes names.now)) }
{
    for (i, other) in names.iter().enumerate() {
        if other.as_str() == name {
            return Some(i);
        }
    }
    None
}

impl<'a> LentNames<'a> {
    /// Borrows these names. The only error is out of memory.
    pub fn new(alloc: Global, names: &'a [String]) -> Result<LentNames<'a>, AllocError>
        ensures { IfOk result (λ lent. lent ≡ map string_bytes names.entry.now) }
    {
        if names.len() <= FEW {
            return Ok(LentNames { names, table: None });
        }
        let table = Box::new(alloc, table_of(alloc, names)?)?;
        Ok(LentNames {
            names,
            table: Some(table),
        })
    }

    /// The first position of a name.
    pub fn place(&self, name: &str) -> Option<usize>
        ensures place { result ≡ place_from 0 self.now name.now }
        ensures within { IfSome result (λ place. place < length self.now) }
    {
        match &self.table {
            Some(table) => table.place(name),
            None => place_among(self.names, name),
        }
    }

    /// Whether the name is in the list.
    pub fn contains(&self, name: &str) -> bool
        ensures { result ≡ has_name self.now name.now }
    {
        match self.place(name) {
            Some(_place) => true,
            None => false,
        }
    }

    /// The names in order.
    pub fn as_slice(&self) -> &'a [String]
        ensures { map string_bytes result.now ≡ self.now }
    {
        self.names
    }
}

/// The value of a name.
pub fn get<T: Copy>(names: &LentNames<'_>, values: &[Option<T>], name: &str) -> Option<T>
    requires { length values.now ≡ length names.now }
    ensures { result ≡ look names.now values.now name.now }
{
    match names.place(name) {
        Some(place) => values[place],
        None => None,
    }
}

/// Sets the value of a name, if the name is in the list. Returns whether it is.
pub fn set<T: Copy>(
    names: &LentNames<'_>,
    values: &mut Vec<Option<T>>,
    name: &str,
    value: T,
) -> bool
    requires { length values.old.items ≡ length names.now }
    ensures there { result ≡ has_name names.now name.now }
    ensures len { length values.new.items ≡ length values.old.items }
    ensures noted { OnTrue result (look names.now values.new.items ≡
        changed (look names.now values.old.items) name.now (Some value)) }
    ensures same { OnFalse result (values.new.items ≡ values.old.items) }
{
    match names.place(name) {
        Some(place) => {
            values[place] = Some(value);
            true
        }
        None => false,
    }
}
