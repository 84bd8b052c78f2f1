//! What inference rules are chosen by: a makefile, and the names that count as present.

ghost use Rattle.std.specs.Prelude.{◌≡◌, IfOk, OnOk};
ghost use Rattle.mk_infer.specs.Table.{AddsBacks, targets_in};
ghost use Rattle.mk_infer.specs.Choosing.{HasThere};

use crate::{Backs, Exists, RuleTable, add_backs};
use indexmap::IndexMap;
use mk_read::Rule;
use std::alloc::{AllocError, Global};
use std::marker::Model;

/// Adds the fronts and backs of the targets of rule lines.
fn add_targets<'m>(
    alloc: Global,
    backs: &mut Backs<'m>,
    rules: &'m [Rule],
) -> Result<(), AllocError>
    ensures { OnOk result (AddsBacks backs.old (targets_in rules.now) backs.new) }
{
    for rule in rules {
        add_backs(alloc, backs, &rule.targets)?;
    }
    Ok(())
}

/// Cuts all present names before their last dot: the sources, the makefile texts, the extra names,
/// and the targets of rule lines (of inference rules too). Names that aren't cut are skipped.
fn backs_there<'m>(
    alloc: Global,
    table: &'m RuleTable<'m>,
    exists: &'m Exists<'m>,
) -> Result<Backs<'m>, AllocError>
    ensures { IfOk result (λ backs. HasThere table.now exists.now backs) }
{
    let mut backs = IndexMap::new(alloc);
    add_backs(alloc, &mut backs, exists.sources.as_slice())?;
    add_backs(alloc, &mut backs, exists.texts.as_slice())?;
    add_backs(alloc, &mut backs, exists.more.as_slice())?;
    add_targets(alloc, &mut backs, table.rules())?;
    Ok(backs)
}

/// A makefile, and the names that count as present, indexed by what stands before their last dot. A
/// contract sees the makefile and the present names.
#[derive(Drop)]
pub struct Choices<'m> {
    table: &'m RuleTable<'m>,
    exists: &'m Exists<'m>,
    backs: Backs<'m>,
}

impl<'m> Model for Choices<'m> {
    ghost use Rattle.mk_infer.specs.Choosing as value;
    ghost use Rattle.mk_infer.specs.Choosing.{HasThere};

    ghost Value = { value.Looked };

    ghost view = { λ c. record { makefile = c.table.now; exists = c.exists.now } };

    ghost invariant = { λ c. HasThere c.table.now c.exists.now c.backs };
}

impl<'m> Choices<'m> {
    /// Makes the index. The time is proportional to the number of present names. The only error is
    /// out of memory.
    pub fn new(
        alloc: Global,
        table: &'m RuleTable<'m>,
        exists: &'m Exists<'m>,
    ) -> Result<Choices<'m>, AllocError>
        ensures { IfOk result (λ choices. choices ≡
            record { makefile = table.now; exists = exists.now }) }
    {
        let backs = backs_there(alloc, table, exists)?;
        Ok(Choices {
            table,
            exists,
            backs,
        })
    }

    /// Returns the makefile.
    pub fn table(&self) -> &'m RuleTable<'m>
        ensures { result.now ≡ self.now.makefile }
    {
        self.table
    }

    /// Returns the files that exist before a make.
    pub fn exists(&self) -> &'m Exists<'m>
        ensures { result.now ≡ self.now.exists }
    {
        self.exists
    }

    /// Returns the present names, indexed by what stands before their last dot.
    pub(crate) fn backs(&self) -> &Backs<'m>
        ensures { HasThere self.now.makefile self.now.exists result.now }
    {
        &self.backs
    }
}
