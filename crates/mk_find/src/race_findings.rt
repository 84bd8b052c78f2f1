//! Races: recipes that read a file which another recipe writes, where the writer doesn't always run
//! before the reader.

ghost use Rattle.std.specs.Prelude.{◌≡◌, ◌∷◌, [], ℕ, map, IfOk, OnOk};
ghost use Rattle.std.specs.List.{flat_map};
ghost use Rattle.mk_graph.specs.Membership.{Has};
ghost use Rattle.mk_graph.specs.Serial.{serial_order};
ghost use Rattle.mk_subject.specs.Subject.{reads_of, writes_of};
ghost use Rattle.mk_find.specs.Candidates.{race, race_candidates};
ghost use Rattle.mk_subject.specs.NodeRow.{IsRow};
ghost use Rattle.mk_find.specs.Listed.{Adds};
ghost use Rattle.mk_find.specs.FileRead.{IsRead};

use crate::file_read::FileRead;
use crate::finding::Finding;
use crate::finding_list::FindingList;
use crate::happens_before::HappensBefore;
use mk_subject::{NodeRow, Subject};
use std::alloc::{AllocError, Global};

/// Adds the finding `Race`, if the writer `other` doesn't happen before the recipe of this read.
fn note_race(
    read: &FileRead<'_, '_>,
    earlier: &mut HappensBefore<'_>,
    other: usize,
    found: &mut FindingList,
) -> Result<(), AllocError>
    requires read { IsRead read.now }
    requires graph { earlier.old.graph ≡ read.now.subject.now.graph }
    requires number { earlier.old.number ≡ read.now.row.now.number }
    requires written { Has (writes_of read.now.subject.now other) read.now.file.file }
    ensures same { earlier.new ≡ earlier.old }
    ensures found { OnOk result (Adds read.now.subject.now
        (race read.now.row.now.number other read.now.file.file ∷ []) found.old found.new) }
{
    let subject = read.subject;
    let row = read.row;
    if other == row.number {
        return Ok(());
    }
    let before = earlier.has(found.allocator(), other)?;
    if before {
        return Ok(());
    }
    let recipe = found.name_of_node(row)?;
    let writer = found.name_of(&subject.file_of_node(other))?;
    let file = found.name_of(&read.file)?;
    found.push(Finding::Race {
        recipe,
        writer,
        file,
    })?;
    Ok(())
}

/// Adds the finding `Race` for each of these writers of the file that doesn't happen before the
/// recipe of this read.
fn note_races_with(
    read: &FileRead<'_, '_>,
    earlier: &mut HappensBefore<'_>,
    writers: &[usize],
    found: &mut FindingList,
) -> Result<(), AllocError>
    requires read { IsRead read.now }
    requires graph { earlier.old.graph ≡ read.now.subject.now.graph }
    requires number { earlier.old.number ≡ read.now.row.now.number }
    requires written { (o : ℕ) → Has writers.now o →
        Has (writes_of read.now.subject.now o) read.now.file.file }
    ensures same { earlier.new ≡ earlier.old }
    ensures found { OnOk result (Adds read.now.subject.now
        (map (λ o. race read.now.row.now.number o read.now.file.file) writers.now)
        found.old found.new) }
{
    for writer in writers {
        note_race(read, earlier, *writer, found)?;
    }
    Ok(())
}

/// Adds the finding `Race` for each writer of the file that doesn't happen before the recipe of
/// this read. Most files have no writers, and then the order isn't queried.
fn note_file(
    read: &FileRead<'_, '_>,
    earlier: &mut HappensBefore<'_>,
    found: &mut FindingList,
) -> Result<(), AllocError>
    requires read { IsRead read.now }
    requires graph { earlier.old.graph ≡ read.now.subject.now.graph }
    ensures graph { earlier.new.graph ≡ earlier.old.graph }
    ensures found { OnOk result (Adds read.now.subject.now
        (map (λ o. race read.now.row.now.number o read.now.file.file)
        (serial_order read.now.subject.now.graph)) found.old found.new) }
{
    let writers = read.file.writers();
    if writers.is_empty() {
        return Ok(());
    }
    let row = read.row;
    earlier.turn_to(found.allocator(), row.number)?;
    note_races_with(read, earlier, writers, found)
}

/// Adds the finding `Race` for each file that this recipe reads and each writer of it that doesn't
/// happen before this recipe.
fn note_files(
    subject: &Subject<'_>,
    earlier: &mut HappensBefore<'_>,
    row: &NodeRow<'_>,
    found: &mut FindingList,
) -> Result<(), AllocError>
    requires row { IsRow subject.now row.now }
    requires graph { earlier.old.graph ≡ subject.now.graph }
    ensures graph { earlier.new.graph ≡ earlier.old.graph }
    ensures found { OnOk result (Adds subject.now
        (flat_map (λ f. map (λ o. race row.now.number o f) (serial_order subject.now.graph))
        (reads_of subject.now row.now.number)) found.old found.new) }
{
    for place in 0..subject.count_of_unsettled(row.number) {
        let file = subject.unsettled(row.number, place);
        let read = FileRead {
            subject: &*subject,
            row: &*row,
            file,
        };
        note_file(&read, earlier, found)?;
    }
    Ok(())
}

/// Adds all races. The order of the whole graph is computed at most once, and only if some writer
/// isn't a direct prerequisite of its reader. The only error is out of memory.
pub fn note_races(subject: &Subject<'_>, found: &mut FindingList) -> Result<(), AllocError>
    ensures { OnOk result (Adds subject.now (race_candidates subject.now) found.old found.new) }
{
    let mut earlier = HappensBefore::new(subject.graph());
    let entries = subject.entries();
    for entry in entries {
        note_files(subject, &mut earlier, entry, found)?;
    }
    Ok(())
}

/// All races: by the reader's position in the serial order, the file's position among its reads,
/// and the writer's position in the serial order. The order of the whole graph is computed at most
/// once, and only if some writer isn't a direct prerequisite of its reader. The only error is out
/// of memory.
pub fn races(alloc: Global, subject: &Subject<'_>) -> Result<Vec<Finding>, AllocError>
    ensures { IfOk result (λ found. Adds subject.now (race_candidates subject.now) []
        found.items) }
{
    let mut found = FindingList::new(alloc);
    note_races(subject, &mut found)?;
    Ok(found.into_findings())
}
