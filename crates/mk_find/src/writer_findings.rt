//! The check `Loose`, of names without a recipe whose files are written.

ghost use Rattle.std.specs.Prelude.{◌≡◌, ◌∷◌, [], ℕ, false, map, OnOk};
ghost use Rattle.mk_graph.specs.Membership.{Has};
ghost use Rattle.mk_graph.specs.Serial.{serial_order};
ghost use Rattle.mk_subject.specs.Subject.{name_of, writes_of};
ghost use Rattle.mk_find.specs.Candidates.{loose};
ghost use Rattle.mk_subject.specs.NodeRow.{IsRow, writers_of};
ghost use Rattle.mk_find.specs.Listed.{Adds};

use crate::finding::Finding;
use crate::finding_list::FindingList;
use mk_subject::{NodeRow, Subject, has_number};
use std::alloc::AllocError;

/// Adds the finding `Loose`, if `writer` isn't a direct prerequisite of this node without a recipe.
fn note_loose_writer(
    subject: &Subject<'_>,
    row: &NodeRow<'_>,
    writer: usize,
    found: &mut FindingList,
) -> Result<(), AllocError>
    requires row { IsRow subject.now row.now }
    requires bare { row.now.node.recipe ≡ false }
    requires written { Has (writes_of subject.now writer) (name_of subject.now row.now.number) }
    ensures { OnOk result (Adds subject.now (loose row.now.number writer ∷ [])
        found.old found.new) }
{
    if has_number(subject.graph().prerequisites(row.number), writer) {
        return Ok(());
    }
    let name = found.name_of_node(row)?;
    let writer = found.name_of(&subject.file_of_node(writer))?;
    found.push(Finding::Loose { name, writer })?;
    Ok(())
}

/// Adds the finding `Loose` for each of these writers that isn't a direct prerequisite of this node
/// without a recipe.
fn note_loose_writers(
    subject: &Subject<'_>,
    row: &NodeRow<'_>,
    writers: &[usize],
    found: &mut FindingList,
) -> Result<(), AllocError>
    requires row { IsRow subject.now row.now }
    requires bare { row.now.node.recipe ≡ false }
    requires written { (o : ℕ) → Has writers.now o →
        Has (writes_of subject.now o) (name_of subject.now row.now.number) }
    ensures { OnOk result (Adds subject.now
        (map (λ o. loose row.now.number o) writers.now) found.old found.new) }
{
    for writer in writers {
        note_loose_writer(subject, row, *writer, found)?;
    }
    Ok(())
}

/// The numbers of the nodes that write the file with the node's name, in the serial order. The
/// contract of an entry doesn't bound its number, so the bound is tested first.
fn writers_for<'s>(subject: &'s Subject<'_>, row: &NodeRow<'_>) -> &'s [usize]
    requires { IsRow subject.now row.now }
    ensures { result.now ≡ writers_of subject.now (name_of subject.now row.now.number) }
{
    if row.number < subject.graph().nodes().len() {
        return subject.writers_of_node(row.number);
    }
    subject.writers(row.name())
}

/// Adds the finding `Loose` for each writer of the node's file that isn't a direct prerequisite of
/// it, if the node has no recipe. The only error is out of memory.
pub fn note_loose(
    subject: &Subject<'_>,
    row: &NodeRow<'_>,
    found: &mut FindingList,
) -> Result<(), AllocError>
    requires { IsRow subject.now row.now }
    ensures { OnOk result (Adds subject.now
        (map (λ o. loose row.now.number o) (serial_order subject.now.graph))
        found.old found.new) }
{
    if row.recipe {
        return Ok(());
    }
    let writers = writers_for(subject, row);
    note_loose_writers(subject, row, writers, found)
}
