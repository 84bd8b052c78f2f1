//! The files that exist before a make.

ghost use Rattle.std.specs.Prelude.{◌≡◌, true, false, ◌||◌, MatchOption};
ghost use Rattle.mk_infer.specs.Table.{is_listed};
ghost use Rattle.mk_infer.specs.There.{is_given};

use mk_lines::{NameTable, Prefixes};
use std::marker::Model;

/// The files that exist before a make, and the names that count as present or as given in addition.
/// It borrows the tables of the build inputs. A contract sees lists of names.
#[derive(Drop)]
pub struct Exists<'a> {
    /// Whether each name without a rule counts as given. Such a name doesn't count as present when
    /// an inference rule is chosen.
    pub any_leaf: bool,
    /// The sources.
    pub sources: &'a NameTable,
    /// The fixed prefixes. A name under one of them is given, and gets no inference rule.
    pub fixed: &'a Prefixes,
    /// The names of the makefile texts.
    pub texts: &'a NameTable,
    /// Extra names that count as present when an inference rule is chosen.
    pub more: &'a NameTable,
}

impl<'a> Model for Exists<'a> {
    ghost use Rattle.mk_infer.specs.There as value;

    ghost Value = { value.Exists };

    ghost view = { λ e.
        record {
          any_leaf = e.any_leaf;
          sources = e.sources.now;
          fixed = e.fixed.now;
          texts = e.texts.now;
          more = e.more.now;
        } };
}

impl<'a> Exists<'a> {
    /// Whether a name is given: a source, under a fixed prefix, or a makefile text.
    pub fn is_given(&self, name: &str) -> bool
        ensures { result ≡ is_given self.now name.now }
    {
        self.sources.contains(name) || self.fixed.begins_with_any(name) || self.texts.contains(name)
    }

    /// Returns the name if it is a source, a makefile text or an extra name.
    pub fn listed(&self, name: &str) -> Option<&str>
        ensures { MatchOption result (is_listed self.now name.now ≡
            false) (λ found. (found.now ≡ name.now) × (is_listed self.now name.now ≡ true)) }
    {
        if let Some(found) = self.sources.get(name) {
            return Some(found);
        }
        if let Some(found) = self.texts.get(name) {
            return Some(found);
        }
        self.more.get(name)
    }
}
