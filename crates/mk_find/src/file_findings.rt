//! Checks of the files that a recipe reads and writes.

ghost use Rattle.std.specs.Prelude.{◌≡◌, ◌↔◌, ◌∷◌, [], true, map, IfOk, IfSome, OnOk};
ghost use Rattle.mk_lines.specs.Names.{has_name};
ghost use Rattle.mk_graph.specs.Membership.{Has};
ghost use Rattle.mk_subject.specs.Subject.{reads_of, writes_of};
ghost use Rattle.mk_find.specs.Candidates.{given_written, own_read, unknown_read};
ghost use Rattle.mk_subject.specs.NodeRow.{IsRow, row_writes};
ghost use Rattle.mk_find.specs.Listed.{Adds};
ghost use Rattle.mk_find.specs.FileTests.{IsUnknown};
ghost use Rattle.mk_subject.specs.Target.{target_of};

use crate::finding::Finding;
use crate::finding_list::FindingList;
use mk_graph::laws::serial_reaches_each_once;
use mk_subject::{FEW_NUMBERS, NameList, NodeRow, Subject, Target, has_number};
use std::alloc::{AllocError, Global};

/// Adds the finding `GivenWritten`, if the file is given, phony, or passed over as missing.
fn note_taken(
    subject: &Subject<'_>,
    row: &NodeRow<'_>,
    file: &Target<'_>,
    found: &mut FindingList,
) -> Result<(), AllocError>
    requires row { IsRow subject.now row.now }
    requires file { file.now ≡ target_of subject.now file.now.file }
    requires written { Has (writes_of subject.now row.now.number) file.now.file }
    ensures { OnOk result (Adds subject.now (given_written row.now.number file.now.file ∷ [])
        found.old found.new) }
{
    let known = file.known;
    if !known.taken {
        return Ok(());
    }
    let recipe = found.name_of_node(row)?;
    let file = found.name_of(file)?;
    found.push(Finding::GivenWritten { recipe, file })?;
    Ok(())
}

/// Adds the finding `GivenWritten` for each file that the recipe writes and that is given, phony,
/// or passed over as missing. The only error is out of memory.
pub fn note_given_written(
    subject: &Subject<'_>,
    row: &NodeRow<'_>,
    found: &mut FindingList,
) -> Result<(), AllocError>
    requires { IsRow subject.now row.now }
    ensures { OnOk result (Adds subject.now
        (map (λ f. given_written row.now.number f) (writes_of subject.now row.now.number))
        found.old found.new) }
{
    for place in 0..subject.count_of_written(row.number) {
        let file = subject.written(row.number, place);
        note_taken(subject, row, &file, found)?;
    }
    Ok(())
}

/// Whether the file is neither given nor written by any recipe.
fn is_unknown(subject: &Subject<'_>, file: &Target<'_>) -> bool
    requires { file.now ≡ target_of subject.now file.now.file }
    ensures { (result ≡ true) ↔ IsUnknown subject.now file.now.file }
{
    serial_reaches_each_once();
    let _graph = subject.graph();
    let known = file.known;
    !known.given && file.writers().is_empty()
}

/// Adds the finding `UnknownRead`, if the file is neither given nor written by any recipe.
fn note_unknown(
    subject: &Subject<'_>,
    row: &NodeRow<'_>,
    file: &Target<'_>,
    found: &mut FindingList,
) -> Result<(), AllocError>
    requires row { IsRow subject.now row.now }
    requires file { file.now ≡ target_of subject.now file.now.file }
    requires read { Has (reads_of subject.now row.now.number) file.now.file }
    ensures { OnOk result (Adds subject.now (unknown_read row.now.number file.now.file ∷ [])
        found.old found.new) }
{
    if !is_unknown(subject, file) {
        return Ok(());
    }
    let recipe = found.name_of_node(row)?;
    let file = found.name_of(file)?;
    found.push(Finding::UnknownRead { recipe, file })?;
    Ok(())
}

/// Adds the finding `UnknownRead` for each file that the recipe reads and that is neither given nor
/// written by any recipe. The only error is out of memory.
pub fn note_unknown_reads(
    subject: &Subject<'_>,
    row: &NodeRow<'_>,
    found: &mut FindingList,
) -> Result<(), AllocError>
    requires { IsRow subject.now row.now }
    ensures { OnOk result (Adds subject.now
        (map (λ f. unknown_read row.now.number f) (reads_of subject.now row.now.number))
        found.old found.new) }
{
    for place in 0..subject.count_of_unsettled(row.number) {
        let file = subject.unsettled(row.number, place);
        note_unknown(subject, row, &file, found)?;
    }
    Ok(())
}

/// Whether the recipe writes a file with this name. `written` is made on the first call.
fn writes_name<'a>(
    alloc: Global,
    row: &NodeRow<'a>,
    written: &mut Option<NameList<'a>>,
    name: &str,
) -> Result<bool, AllocError>
    requires { IfSome written.old (λ list. list ≡ row_writes row.now) }
    ensures writes { IfOk result (λ writes. writes ≡ has_name (row_writes row.now) name.now) }
    ensures written { OnOk result
        (IfSome written.new (λ list. list ≡ row_writes row.now)) }
{
    let mut list = match written.take() {
        Some(list) => list,
        None => NameList::new(row.writes()),
    };
    list.note_use(alloc)?;
    let writes = list.has(name);
    *written = Some(list);
    Ok(writes)
}

/// Whether the recipe writes the file. It searches the writers of the file if these are few, else
/// the files that the recipe writes.
fn is_own<'a>(
    alloc: Global,
    subject: &Subject<'_>,
    row: &NodeRow<'a>,
    written: &mut Option<NameList<'a>>,
    file: &Target<'_>,
) -> Result<bool, AllocError>
    requires row { IsRow subject.now row.now }
    requires written { IfSome written.old (λ list. list ≡ row_writes row.now) }
    requires file { file.now ≡ target_of subject.now file.now.file }
    ensures own { IfOk result (λ own. (own ≡ true) ↔
        Has (writes_of subject.now row.now.number) file.now.file) }
    ensures written { OnOk result
        (IfSome written.new (λ list. list ≡ row_writes row.now)) }
{
    serial_reaches_each_once();
    let _graph = subject.graph();
    let writers = file.writers();
    if writers.len() <= FEW_NUMBERS {
        return Ok(has_number(writers, row.number));
    }
    writes_name(alloc, row, written, file.file)
}

/// Adds the finding `OwnRead`, if the recipe writes the file.
fn note_own<'a>(
    subject: &Subject<'_>,
    row: &NodeRow<'a>,
    written: &mut Option<NameList<'a>>,
    file: &Target<'_>,
    found: &mut FindingList,
) -> Result<(), AllocError>
    requires row { IsRow subject.now row.now }
    requires written { IfSome written.old (λ list. list ≡ row_writes row.now) }
    requires file { file.now ≡ target_of subject.now file.now.file }
    requires read { Has (reads_of subject.now row.now.number) file.now.file }
    ensures added { OnOk result (Adds subject.now (own_read row.now.number file.now.file ∷ [])
        found.old found.new) }
    ensures written { OnOk result
        (IfSome written.new (λ list. list ≡ row_writes row.now)) }
{
    if !is_own(found.allocator(), subject, row, written, file)? {
        return Ok(());
    }
    let recipe = found.name_of_node(row)?;
    let file = found.name_of(file)?;
    found.push(Finding::OwnRead { recipe, file })?;
    Ok(())
}

/// Adds the finding `OwnRead` for each file that the recipe both reads and writes. The only error
/// is out of memory.
pub fn note_own_reads(
    subject: &Subject<'_>,
    row: &NodeRow<'_>,
    found: &mut FindingList,
) -> Result<(), AllocError>
    requires { IsRow subject.now row.now }
    ensures { OnOk result (Adds subject.now
        (map (λ f. own_read row.now.number f) (reads_of subject.now row.now.number))
        found.old found.new) }
{
    serial_reaches_each_once();
    let _graph = subject.graph();
    let mut written = None;
    for place in 0..subject.count_of_unsettled(row.number) {
        let file = subject.unsettled(row.number, place);
        note_own(subject, row, &mut written, &file, found)?;
    }
    Ok(())
}
