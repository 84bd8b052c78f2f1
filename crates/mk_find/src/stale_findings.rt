//! Judges each read of each recipe once, both for findings and for the certificate.

ghost use Rattle.std.specs.Prelude.{◌≡◌, ◌∷◌, [], ℕ, map, IfOk, MatchOption, OnOk};
ghost use Rattle.mk_graph.specs.Membership.{Has};
ghost use Rattle.mk_graph_search.specs.Ways.{successors};
ghost use Rattle.mk_find.specs.Candidates.{stale, stale_candidates, static_candidates};
ghost use Rattle.mk_subject.specs.Carried.{carried};
ghost use Rattle.mk_subject.specs.NodeRow.{IsRow};
ghost use Rattle.mk_subject.specs.WayTables.{AreEnds};
ghost use Rattle.mk_find.specs.FileRead.{IsRead};
ghost use Rattle.mk_find.specs.Listed.{Adds};
ghost use Rattle.mk_find.specs.PathTables.{ArePathTables};
ghost use Rattle.mk_find.specs.Listing.{Lists};
ghost use Rattle.mk_subject.specs.Subject.{reads_of, writes_of, Subject as SubjectValue};
ghost use Rattle.mk_find.specs.Certifying.{AddsEntries, AreEntriesFor, ReadNeedsWay, reads_by, reads_once};
ghost use Rattle.mk_find.specs.FirstPaths.{AlwaysNoneBefore, IsAlongFirstPath};
ghost use Rattle.mk_find.specs.Conditions.{IsStale};

use crate::certifying::CertificateBuilder;
use crate::file_read::FileRead;
use crate::finding::Finding;
use crate::finding_laws::{listed_exactly, nothing_found_is_sound};
use crate::finding_list::FindingList;
use crate::first_path::FirstPath;
use crate::path_tables::PathTables;
use crate::read_status::{ReadStatus, read_status_of};
use mk_cert_text::Ways;
use mk_graph_search::Search;
use mk_subject::laws::paths_are_ways;
use mk_subject::{EndTables, NodeRow, Subject, Target, carried_lists, end_tables_of};
use std::alloc::{AllocError, Global};

/// Adds the finding `Stale` for a read. The only error is out of memory.
fn note_stale(
    row: &NodeRow<'_>,
    file: &Target<'_>,
    found: &mut FindingList,
) -> Result<(), AllocError>
    ensures { OnOk result ((x : SubjectValue) → IsRow x row.now →
        IsStale x row.now.number file.now.file →
        Adds x (stale row.now.number file.now.file ∷ []) found.old found.new) }
{
    let recipe = found.name_of_node(row)?;
    let file = found.name_of(file)?;
    found.push(Finding::Stale { recipe, file })?;
    Ok(())
}

/// Adds the finding `Stale`, if the read is stale. Returns the first path for its certificate
/// entry, if the read needs a way and there is no finding, or `None`. The recipe must not write the
/// file. `passed` is as for `first_path`.
pub(crate) fn judge_read(
    read: &FileRead<'_, '_>,
    ends: &EndTables<'_>,
    search: &mut Search<'_>,
    passed: &mut usize,
    found: &mut FindingList,
) -> Result<Option<FirstPath>, AllocError>
    requires read { IsRead read.now }
    requires ends { AreEnds read.now.subject.now ends.now.needed.items ends.now.always.items }
    requires rows { (t : ℕ) → successors search.old.rows t ≡ carried read.now.subject.now t }
    requires start { search.old.start ≡ read.now.row.now.number }
    requires passed { AlwaysNoneBefore read.now.subject.now search.old.start passed.old }
    requires out { ¬ (Has (writes_of read.now.subject.now read.now.row.now.number)
        read.now.file.file) }
    ensures same { search.new ≡ search.old }
    ensures passed { AlwaysNoneBefore read.now.subject.now search.old.start passed.new }
    ensures found { OnOk result (Adds read.now.subject.now
        (stale read.now.row.now.number read.now.file.file ∷ []) found.old found.new) }
    ensures path { IfOk result (λ path. MatchOption path
        (found.new ≡ [] → ¬ (ReadNeedsWay read.now.subject.now
        (record { recipe = read.now.row.now.number; file = read.now.file.file })))
        (λ path. (found.new ≡ []) × ReadNeedsWay read.now.subject.now
        (record { recipe = read.now.row.now.number; file = read.now.file.file }) ×
        IsAlongFirstPath read.now.subject.now read.now.file.file read.now.row.now.number
        path.nodes.items path.finish)) }
{
    listed_exactly();
    paths_are_ways();
    match read_status_of(read.subject, ends, search, passed, &read.file)? {
        ReadStatus::Fixed => Ok(None),
        ReadStatus::HasWay(path) if found.is_empty() => Ok(Some(path)),
        ReadStatus::HasWay(_) => Ok(None),
        ReadStatus::Stale => {
            note_stale(read.row, &read.file, found)?;
            Ok(None)
        }
    }
}

/// Adds the finding `Stale` for each stale read of a recipe; as long as there are no findings, also
/// appends the entries for its reads. A record lists no file twice, so no read gets two entries.
fn judge_reads(
    tables: &PathTables<'_>,
    search: &mut Search<'_>,
    row: &NodeRow<'_>,
    found: &mut FindingList,
    ways: &mut CertificateBuilder,
) -> Result<(), AllocError>
    requires tables { ArePathTables tables.now }
    requires row { IsRow tables.now.subject.now row.now }
    requires search { search.old ≡ record { rows = tables.now.rows; start = row.now.number } }
    requires nothing { Lists tables.now.subject.now (static_candidates tables.now.subject.now) [] }
    ensures found { OnOk result (Adds tables.now.subject.now
        (map (λ f. stale row.now.number f) (reads_of tables.now.subject.now row.now.number))
        found.old found.new) }
    ensures ways { OnOk result (found.new ≡ [] → AddsEntries tables.now.subject.now
        (reads_by tables.now.subject.now row.now.number) ways.old ways.new) }
{
    nothing_found_is_sound();
    let subject = tables.subject;
    let _graph = subject.graph();
    let mut passed = 0;
    for place in 0..subject.count_of_reads(row.number) {
        let file = subject.read(row, place);
        let read = FileRead {
            subject,
            row: &*row,
            file,
        };
        let path = judge_read(&read, &tables.ends, search, &mut passed, found)?;
        if let Some(path) = path {
            ways.push(&read, &path)?;
        }
    }
    Ok(())
}

/// Adds the finding `Stale` for each stale read of a recipe; as long as there are no findings, also
/// appends the entries for its reads. It makes one search, and none if the recipe reads nothing.
fn judge_recipe(
    tables: &PathTables<'_>,
    row: &NodeRow<'_>,
    found: &mut FindingList,
    ways: &mut CertificateBuilder,
) -> Result<(), AllocError>
    requires tables { ArePathTables tables.now }
    requires row { IsRow tables.now.subject.now row.now }
    requires nothing { Lists tables.now.subject.now (static_candidates tables.now.subject.now) [] }
    ensures found { OnOk result (Adds tables.now.subject.now
        (map (λ f. stale row.now.number f) (reads_of tables.now.subject.now row.now.number))
        found.old found.new) }
    ensures ways { OnOk result (found.new ≡ [] → AddsEntries tables.now.subject.now
        (reads_by tables.now.subject.now row.now.number) ways.old ways.new) }
{
    let subject = tables.subject;
    if subject.count_of_reads(row.number) == 0 {
        return Ok(());
    }
    let mut search = Search::new(found.allocator(), &tables.rows, row.number)?;
    judge_reads(tables, &mut search, row, found, ways)
}

/// Adds the finding `Stale` for each stale read, if there are no static findings. Returns the
/// entries for all reads, which are complete only if there is no finding even then. It makes one
/// search from each recipe. The only error is out of memory.
pub(crate) fn judge_all(
    alloc: Global,
    subject: &Subject<'_>,
    found: &mut FindingList,
) -> Result<Ways, AllocError>
    requires { Lists subject.now (static_candidates subject.now) [] }
    ensures found { IfOk result (λ _. Adds subject.now (stale_candidates subject.now)
        found.old found.new) }
    ensures ways { IfOk result (λ ways. found.new ≡ [] →
        AreEntriesFor subject.now (reads_once subject.now) ways) }
{
    let ends = end_tables_of(alloc, subject)?;
    let rows = carried_lists(alloc, subject)?;
    let tables = PathTables {
        subject,
        ends,
        rows,
    };
    let entries = subject.entries();
    // Only reads of unsettled files have entries.
    let mut ways = CertificateBuilder::with_capacity(alloc, subject.count_of_all_unsettled())?;
    for entry in entries {
        judge_recipe(&tables, entry, found, &mut ways)?;
    }
    Ok(ways.into_ways())
}
