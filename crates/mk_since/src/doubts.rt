//! Which recipes of an old build are doubted.

ghost use Rattle.std.specs.Prelude.{◌≡◌, ◌&&◌, map, option_map, option_to_list, IfOk, OnOk};
ghost use Rattle.std.specs.List.{list_any};
ghost use Rattle.std.specs.String.{string_bytes};
ghost use Rattle.mk_lines.specs.Names.{has_name};
ghost use Rattle.mk_subject.specs.NodeRow.{row_reads};
ghost use Rattle.mk_since.specs.Doubts.{AreDoubtedBy};
ghost use Rattle.mk_since.specs.Parts.{about, all_about, doubts_among, is_doubted, with_row};

use crate::laws::doubts_are_these;
use mk_find::Finding;
use mk_lines::{BorrowedNames, NameTable};
use mk_subject::{NodeRow, Subject};
use std::alloc::{AllocError, Global};

/// The recipe that a race or a stale read is about. Allocates nothing.
fn about<'a>(finding: &'a Finding) -> Option<&'a str>
    ensures { option_to_list (option_map (λ name. name.now) result) ≡ about finding.entry.now }
{
    match finding {
        Finding::Race { recipe, .. } => Some(recipe.as_str()),
        Finding::Stale { recipe, .. } => Some(recipe.as_str()),
        _ => None,
    }
}

/// The recipes that races and stale reads are about.
fn all_about<'a>(alloc: Global, found: &'a [Finding]) -> Result<BorrowedNames<'a>, AllocError>
    ensures { IfOk result (λ names. names ≡ all_about found.entry.now) }
{
    let mut names = BorrowedNames::new(alloc);
    for finding in found {
        if let Some(name) = about(finding) {
            names.insert(name)?;
        }
    }
    Ok(names)
}

/// Whether the recipe of a row reads one of the files. Allocates nothing.
fn reads_any(files: &BorrowedNames<'_>, row: &NodeRow<'_>) -> bool
    ensures { result ≡ list_any (has_name files.now) (row_reads row.now) }
{
    for file in row.reads() {
        if files.contains(file.as_str()) {
            return true;
        }
    }
    false
}

/// Whether the recipe of a row is doubted: one of the findings is about it, or it reads one of the
/// files. Allocates nothing.
fn is_doubted(found: &BorrowedNames<'_>, files: &BorrowedNames<'_>, row: &NodeRow<'_>) -> bool
    ensures { result ≡ is_doubted found.now files.now row.now }
{
    row.recipe && (found.contains(row.name()) || reads_any(files, row))
}

/// Adds the target of a recipe to the targets and what it writes to the files, if it is doubted.
fn note_row<'a>(
    found: &BorrowedNames<'_>,
    row: &'a NodeRow<'_>,
    targets: &mut BorrowedNames<'a>,
    files: &mut BorrowedNames<'a>,
) -> Result<(), AllocError>
    ensures { OnOk result (record { targets = targets.new; files = files.new } ≡
        with_row found.now (record { targets = targets.old; files = files.old })
        row.entry.now) }
{
    if is_doubted(found, files, row) {
        targets.insert(row.name())?;
        files.insert_all(row.writes())?;
    }
    Ok(())
}

/// The targets of recipes that are doubted among the rows.
fn targets_among<'a>(
    alloc: Global,
    found: &BorrowedNames<'_>,
    rows: &'a [NodeRow<'_>],
) -> Result<BorrowedNames<'a>, AllocError>
    ensures { IfOk result (λ targets. targets ≡
        (doubts_among found.entry.now rows.entry.now).targets) }
{
    let mut targets = BorrowedNames::new(alloc);
    let mut files = BorrowedNames::new(alloc);
    for row in rows {
        note_row(found, row, &mut targets, &mut files)?;
    }
    Ok(targets)
}

/// A table of copies of the names.
fn table_of(alloc: Global, names: &[&str]) -> Result<NameTable, AllocError>
    ensures { IfOk result (λ table. table ≡ map (λ name. name.now) names.now) }
{
    let mut copies = Vec::with_capacity(alloc, names.len())?;
    for name in names {
        copies.push(String::from_str(alloc, name)?)?;
    }
    NameTable::new(alloc, copies)
}

/// The targets of the doubted recipes, if these are the findings of the build and all of them are
/// races and stale reads. The only error is out of memory.
pub(crate) fn doubted(
    alloc: Global,
    subject: &Subject<'_>,
    found: &[Finding],
) -> Result<NameTable, AllocError>
    ensures { IfOk result (λ names. AreDoubtedBy subject.now found.now names) }
{
    doubts_are_these();
    let _graph = subject.graph();
    let about = all_about(alloc, found)?;
    let targets = targets_among(alloc, &about, subject.entries())?;
    let table = table_of(alloc, targets.as_slice())?;
    Ok(table)
}
