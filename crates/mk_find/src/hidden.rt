//! What static findings hide: races and stale reads.

ghost use Rattle.std.specs.Prelude.{◌≡◌, ℕ, IfOk, OnOk};
ghost use Rattle.mk_lines.specs.Names.{has_name};
ghost use Rattle.mk_graph_search.specs.Ways.{successors};
ghost use Rattle.mk_find.specs.Candidates.{by_node};
ghost use Rattle.mk_subject.specs.Carried.{carried};
ghost use Rattle.mk_find.specs.FileRead.{IsRead};
ghost use Rattle.mk_find.specs.Listed.{Adds};
ghost use Rattle.mk_find.specs.PathTables.{ArePathTables};
ghost use Rattle.mk_subject.specs.NodeRow.{IsRow};
ghost use Rattle.mk_subject.specs.Subject.{writes_of};
ghost use Rattle.mk_subject.specs.Target.{target_of};
ghost use Rattle.mk_subject.specs.WayTables.{AreEnds};
ghost use Rattle.mk_find.specs.Findings.{AreHidden, hidden_read, hidden_reads};
ghost use Rattle.mk_find.specs.FirstPaths.{AlwaysNoneBefore};

use crate::file_read::FileRead;
use crate::finding::Finding;
use crate::finding_list::FindingList;
use crate::path_tables::PathTables;
use crate::race_findings::note_races;
use crate::stale_findings::judge_read;
use mk_graph::laws::serial_reaches_each_once;
use mk_graph_search::Search;
use mk_subject::{EndTables, NodeRow, Subject, Target, carried_lists, end_tables_of};
use std::alloc::{AllocError, Global};

/// Whether the recipe writes the file.
fn is_own(subject: &Subject<'_>, row: &NodeRow<'_>, file: &Target<'_>) -> bool
    requires { file.now ≡ target_of subject.now file.now.file }
    ensures { result ≡ has_name (writes_of subject.now row.now.number) file.now.file }
{
    serial_reaches_each_once();
    let _graph = subject.graph();
    file.writers().contains(&row.number)
}

/// Adds the finding `Stale`, if the recipe doesn't write the file and the read is stale. `passed`
/// is as for `first_path`.
fn note_hidden_read(
    read: &FileRead<'_, '_>,
    ends: &EndTables<'_>,
    search: &mut Search<'_>,
    passed: &mut usize,
    found: &mut FindingList,
) -> Result<(), AllocError>
    requires read { IsRead read.now }
    requires ends { AreEnds read.now.subject.now ends.now.needed.items ends.now.always.items }
    requires rows { (t : ℕ) → successors search.old.rows t ≡ carried read.now.subject.now t }
    requires start { search.old.start ≡ read.now.row.now.number }
    requires passed { AlwaysNoneBefore read.now.subject.now search.old.start passed.old }
    ensures same { search.new ≡ search.old }
    ensures passed { AlwaysNoneBefore read.now.subject.now search.old.start passed.new }
    ensures found { OnOk result (Adds read.now.subject.now
        (hidden_read read.now.subject.now read.now.row.now.number read.now.file.file)
        found.old found.new) }
{
    if is_own(read.subject, read.row, &read.file) {
        return Ok(());
    }
    judge_read(read, ends, search, passed, found)?;
    Ok(())
}

/// Adds the finding `Stale` for each stale read of a file that the recipe doesn't write.
fn note_hidden_reads(
    tables: &PathTables<'_>,
    search: &mut Search<'_>,
    row: &NodeRow<'_>,
    found: &mut FindingList,
) -> Result<(), AllocError>
    requires tables { ArePathTables tables.now }
    requires row { IsRow tables.now.subject.now row.now }
    requires search { search.old ≡ record { rows = tables.now.rows; start = row.now.number } }
    ensures { OnOk result (Adds tables.now.subject.now
        (hidden_reads tables.now.subject.now row.now.number) found.old found.new) }
{
    let subject = tables.subject;
    let mut passed = 0;
    for place in 0..subject.count_of_reads(row.number) {
        let file = subject.read(row, place);
        let read = FileRead {
            subject,
            row: &*row,
            file,
        };
        note_hidden_read(&read, &tables.ends, search, &mut passed, found)?;
    }
    Ok(())
}

/// Adds the finding `Stale` for each stale read of a file that the recipe doesn't write. It makes
/// one search, and none if the recipe reads nothing.
fn search_hidden(
    tables: &PathTables<'_>,
    row: &NodeRow<'_>,
    found: &mut FindingList,
) -> Result<(), AllocError>
    requires tables { ArePathTables tables.now }
    requires row { IsRow tables.now.subject.now row.now }
    ensures { OnOk result (Adds tables.now.subject.now
        (hidden_reads tables.now.subject.now row.now.number) found.old found.new) }
{
    let subject = tables.subject;
    if subject.count_of_reads(row.number) == 0 {
        return Ok(());
    }
    let mut search = Search::new(found.allocator(), &tables.rows, row.number)?;
    note_hidden_reads(tables, &mut search, row, found)
}

/// Adds the finding `Stale` for each stale read of a file that its recipe doesn't write.
fn note_all_hidden(
    alloc: Global,
    subject: &Subject<'_>,
    found: &mut FindingList,
) -> Result<(), AllocError>
    ensures { OnOk result (Adds subject.now (by_node subject.now (hidden_reads subject.now))
        found.old found.new) }
{
    let ends = end_tables_of(alloc, subject)?;
    let rows = carried_lists(alloc, subject)?;
    let tables = PathTables {
        subject,
        ends,
        rows,
    };
    let entries = subject.entries();
    for entry in entries {
        search_hidden(&tables, entry, found)?;
    }
    Ok(())
}

/// The races, followed by the stale reads of files that the recipe doesn't write: what static
/// findings hide, as far as it can be told beside them. Without static findings these are all
/// findings. The only error is out of memory.
pub fn hidden_findings(alloc: Global, subject: &Subject<'_>) -> Result<Vec<Finding>, AllocError>
    ensures { IfOk result (λ found. AreHidden subject.now found.items) }
{
    let mut found = FindingList::new(alloc);
    note_races(subject, &mut found)?;
    note_all_hidden(alloc, subject, &mut found)?;
    Ok(found.into_findings())
}
