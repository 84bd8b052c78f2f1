//! The table of macros.

ghost use Rattle.std.specs.Prelude.{◌≡◌, [], OnOk, OnErr};
ghost use Rattle.std.specs.Option.{option_map};
ghost use Rattle.mk_macros.specs.Table.{macro_named, with_macro, with_text_behind};
ghost use Rattle.mk_macros.specs.Views.{macro_of};

use indexmap::IndexMap;
use std::alloc::{AllocError, Global};
use std::marker::Model;

/// A macro of the table, without its name.
#[derive(Debug, Drop)]
pub(crate) struct Macro {
    pub(crate) text: Vec<u8>,
    /// Whether the text is the value itself; else it is expanded at each use.
    pub(crate) immediate: bool,
    /// Whether an operand has fixed it.
    pub(crate) fixed: bool,
}

/// The defined macros, in the order of their first definitions, seen by contracts as a list of
/// macros.
#[derive(Drop)]
pub struct MacroTable {
    /// The allocator of names and texts.
    pub(crate) alloc: Global,
    macros: IndexMap<Vec<u8>, Macro>,
}

impl Model for MacroTable {
    ghost use Rattle.std.specs.Prelude.{List, map};
    ghost use Rattle.mk_macros.specs.Table.{Macro};
    ghost use Rattle.mk_macros.specs.Views.{entry_view};

    ghost Value = { List Macro };

    ghost view = { λ table. map entry_view table.macros.entries };
}

impl MacroTable {
    /// The empty table.
    pub fn new(alloc: Global) -> MacroTable
        ensures { result ≡ [] }
    {
        MacroTable {
            alloc,
            macros: IndexMap::new(alloc),
        }
    }

    /// The macro with this name, or `None` where it is undefined.
    pub(crate) fn get(&self, name: &[u8]) -> Option<&Macro>
        ensures { option_map (λ found. macro_of name.now found.now) result ≡
            macro_named self.now name.now }
    {
        self.macros.get(name)
    }

    /// Stores a macro, in place of one with the same name or else at the end. The only error is out
    /// of memory; the table is then unchanged.
    pub(crate) fn put(&mut self, name: &[u8], entry: Macro) -> Result<(), AllocError>
        ensures ok { OnOk result (self.new ≡ with_macro self.old (macro_of name.now entry)) }
        ensures err { OnErr result (self.new ≡ self.old) }
    {
        let key = Vec::from_slice(self.alloc, name)?;
        self.macros.insert(key, entry)?;
        Ok(())
    }

    /// Appends a space and `more` to the text of a macro, in place, so that repeated appending
    /// takes linear time. Does nothing where the name is undefined. The only error is out of
    /// memory; the table is then unchanged.
    pub(crate) fn append(&mut self, name: &[u8], more: &[u8]) -> Result<(), AllocError>
        ensures ok { OnOk result (self.new ≡
            with_text_behind self.old more.now (macro_named self.old name.now)) }
        ensures err { OnErr result (self.new ≡ self.old) }
    {
        let Some(entry) = self.macros.get_mut(name) else {
            return Ok(());
        };
        entry.text.reserve(1 + more.len())?;
        entry.text.push(b' ')?;
        entry.text.extend_from_slice(more)?;
        Ok(())
    }
}
