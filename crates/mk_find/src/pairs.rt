//! Pairs of recipes that write the same file.

ghost use Rattle.std.specs.Prelude.{◌≡◌, ◌∷◌, [], ℕ, map, OnOk};
ghost use Rattle.mk_graph.specs.Membership.{Has};
ghost use Rattle.mk_graph.specs.Serial.{serial_order};
ghost use Rattle.mk_subject.specs.Subject.{writes_of};
ghost use Rattle.mk_find.specs.Candidates.{pairs_of_writers, two_writers};
ghost use Rattle.mk_find.specs.Conditions.{AreTwoWriters};
ghost use Rattle.mk_subject.specs.NodeRow.{IsRow};
ghost use Rattle.mk_find.specs.NodeChecks.{behind, pairs_with};
ghost use Rattle.mk_find.specs.Listed.{Adds};
ghost use Rattle.mk_subject.specs.Target.{target_of};

use crate::finding::Finding;
use crate::finding_list::FindingList;
use mk_graph::laws::serial_reaches_each_once;
use mk_subject::{NodeRow, Subject, Target};
use std::alloc::AllocError;

/// Adds the finding `TwoWriters` of this recipe and `other`.
fn note_pair(
    subject: &Subject<'_>,
    row: &NodeRow<'_>,
    other: usize,
    file: &Target<'_>,
    found: &mut FindingList,
) -> Result<(), AllocError>
    requires row { IsRow subject.now row.now }
    requires written { AreTwoWriters subject.now row.now.number other file.now.file }
    ensures { OnOk result (Adds subject.now (two_writers row.now.number other file.now.file ∷ [])
        found.old found.new) }
{
    let first = found.name_of_node(row)?;
    let second = found.name_of(&subject.file_of_node(other))?;
    let file = found.name_of(file)?;
    found.push(Finding::TwoWriters {
        first,
        second,
        file,
    })?;
    Ok(())
}

/// Adds the finding `TwoWriters` of this recipe with each of `others`.
fn note_pairs_with(
    subject: &Subject<'_>,
    row: &NodeRow<'_>,
    others: &[usize],
    file: &Target<'_>,
    found: &mut FindingList,
) -> Result<(), AllocError>
    requires row { IsRow subject.now row.now }
    requires written { (t : ℕ) → Has others.now t →
        AreTwoWriters subject.now row.now.number t file.now.file }
    ensures { OnOk result (Adds subject.now
        (map (λ t. two_writers row.now.number t file.now.file) others.now)
        found.old found.new) }
{
    for other in others {
        note_pair(subject, row, *other, file, found)?;
    }
    Ok(())
}

/// The numbers after the first occurrence of `number`.
fn behind(number: usize, numbers: &[usize]) -> &[usize]
    ensures { result.now ≡ behind number numbers.now }
{
    for (place, other) in numbers.iter().enumerate() {
        if *other == number {
            return &numbers[place + 1..];
        }
    }
    &[]
}

/// Adds the finding `TwoWriters` of this recipe with each later one in the serial order that writes
/// the file.
fn note_file(
    subject: &Subject<'_>,
    row: &NodeRow<'_>,
    file: &Target<'_>,
    found: &mut FindingList,
) -> Result<(), AllocError>
    requires row { IsRow subject.now row.now }
    requires file { file.now ≡ target_of subject.now file.now.file }
    requires written { Has (writes_of subject.now row.now.number) file.now.file }
    ensures { OnOk result (Adds subject.now
        (map (λ t. two_writers row.now.number t file.now.file)
        (behind row.now.number (serial_order subject.now.graph)))
        found.old found.new) }
{
    serial_reaches_each_once();
    let _graph = subject.graph();
    let writers = file.writers();
    let others = behind(row.number, writers);
    note_pairs_with(subject, row, others, file, found)
}

/// Adds the finding `TwoWriters` for each file of this recipe and each later recipe in the serial
/// order that writes it too. The only error is out of memory.
pub fn note_files(
    subject: &Subject<'_>,
    row: &NodeRow<'_>,
    found: &mut FindingList,
) -> Result<(), AllocError>
    requires { IsRow subject.now row.now }
    ensures { OnOk result (Adds subject.now (pairs_with subject.now row.now.number)
        found.old found.new) }
{
    for place in 0..subject.count_of_written(row.number) {
        let file = subject.written(row.number, place);
        note_file(subject, row, &file, found)?;
    }
    Ok(())
}

/// Adds the finding `TwoWriters` for all pairs of recipes. The only error is out of memory.
pub fn note_pairs(subject: &Subject<'_>, found: &mut FindingList) -> Result<(), AllocError>
    ensures { OnOk result (Adds subject.now
        (pairs_of_writers subject.now (serial_order subject.now.graph))
        found.old found.new) }
{
    serial_reaches_each_once();
    let _graph = subject.graph();
    let entries = subject.entries();
    for entry in entries {
        note_files(subject, entry, found)?;
    }
    Ok(())
}
