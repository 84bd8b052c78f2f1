//! The files that are named.

ghost use Rattle.std.specs.Prelude.{◌≡◌, ◌↔◌, ◌⊎◌, ℕ, List, not, map, IfOk, OnOk};
ghost use Rattle.std.specs.Cmp.Lexicographic.{slice_cmp};
ghost use Rattle.std.specs.List.Sorted.{IsSorted};
ghost use Rattle.std.specs.Ordering.{nat_cmp};
ghost use Rattle.std.specs.String.{string_bytes};
ghost use Rattle.mk_lines.specs.Names.{has_name};
ghost use Rattle.mk_graph.specs.Membership.{Has};
ghost use Rattle.mk_subject.specs.NodeRow.{AreRows, NodeRow as RowValue};
ghost use Rattle.mk_since.specs.Named.{AreNamedBy};
ghost use Rattle.mk_since.specs.Parts.{Among, Leaves, Renews, has_file, is_made_anew, with_those};

use crate::past::Past;
use crate::rules::{cant_stay, has_file};
use mk_lines::{BorrowedNames, Name, Names};
use mk_subject::{NodeRow, Subject, end_tables_of};
use std::alloc::{AllocError, Global};

/// Adds those of the files that the build doesn't have.
fn note_lacking<'a>(
    subject: &Subject<'_>,
    files: &'a [String],
    names: &mut BorrowedNames<'a>,
) -> Result<(), AllocError>
    ensures { OnOk result (names.new ≡ with_those (λ f. not (has_file subject.now f)) names.old
        (map string_bytes files.entry.now)) }
{
    for file in files {
        if !has_file(subject, file.as_str()) {
            names.insert(file.as_str())?;
        }
    }
    Ok(())
}

/// Adds those of the files that the old build has itself.
fn note_owned<'a>(
    past: &Past,
    files: &'a [String],
    names: &mut BorrowedNames<'a>,
) -> Result<(), AllocError>
    ensures { OnOk result (names.new ≡ with_those (has_name past.now.own) names.old
        (map string_bytes files.entry.now)) }
{
    for file in files {
        if past.owns(file.as_str()) {
            names.insert(file.as_str())?;
        }
    }
    Ok(())
}

/// Adds the files that are left over.
fn note_left_over<'a>(
    past: &'a Past,
    subject: &Subject<'_>,
    names: &mut BorrowedNames<'a>,
) -> Result<(), AllocError>
    ensures { OnOk result ((f : List ℕ) → Has names.new f ↔
        (Has names.old f ⊎ Among (Leaves subject.now) past.entry.now.recipes f)) }
{
    for recipe in past.recipes() {
        note_lacking(subject, recipe.writes(), names)?;
    }
    Ok(())
}

/// Whether the recipe of this node isn't made in every make, and what it wrote before can't stay. The
/// only error is out of memory.
fn is_made_anew(
    alloc: Global,
    past: &Past,
    subject: &Subject<'_>,
    always: &[bool],
    row: &NodeRow<'_>,
) -> Result<bool, AllocError>
    ensures { IfOk result (λ anew. anew ≡
        is_made_anew past.now subject.now always.now row.now) }
{
    let is_always_made = match always.get(row.number) {
        Some(is_always_made) => *is_always_made,
        None => false,
    };
    Ok(!is_always_made && cant_stay(alloc, past, subject, row)?)
}

/// Adds the files of the old build among those that are made anew.
fn note_made_anew<'a>(
    alloc: Global,
    past: &Past,
    subject: &Subject<'a>,
    always: &[bool],
    names: &mut BorrowedNames<'a>,
) -> Result<(), AllocError>
    ensures { OnOk result ((entries : List RowValue) × (AreRows subject.now entries ×
        ((f : List ℕ) → Has names.new f ↔ (Has names.old f ⊎
        Among (Renews past.now subject.now always.now) entries f)))) }
{
    for entry in subject.entries() {
        let is_anew = is_made_anew(alloc, past, subject, always, entry)?;
        if is_anew {
            note_owned(past, entry.writes(), names)?;
        }
    }
    Ok(())
}

/// Copies of the names.
fn copied(alloc: Global, names: &[&str]) -> Result<Names, AllocError>
    ensures { IfOk result (λ copies. copies ≡ map (λ name. name.now) names.now) }
{
    let mut copies = Vec::with_capacity(alloc, names.len())?;
    for name in names {
        copies.push(Name::new(alloc, name)?)?;
    }
    Ok(Names::new(copies))
}

/// Copies of the names in ascending order of their bytes.
fn in_order(alloc: Global, names: &BorrowedNames<'_>) -> Result<Names, AllocError>
    ensures sorted { IfOk result (λ copies. IsSorted (slice_cmp nat_cmp) copies) }
    ensures all { IfOk result (λ copies. (f : List ℕ) → Has copies f ↔ Has names.now f) }
{
    let mut texts = Vec::from_slice(alloc, names.as_slice())?;
    texts.sort()?;
    let copies = copied(alloc, texts.as_slice())?;
    Ok(copies)
}

/// The files that are named.
fn noted<'a>(
    alloc: Global,
    past: &'a Past,
    subject: &Subject<'a>,
) -> Result<BorrowedNames<'a>, AllocError>
    ensures { IfOk result (λ names. AreNamedBy past.entry.now subject.now names) }
{
    let ends = end_tables_of(alloc, subject)?;
    let mut names = BorrowedNames::new(alloc);
    note_left_over(past, subject, &mut names)?;
    note_made_anew(alloc, past, subject, &ends.always, &mut names)?;
    Ok(names)
}

/// The files of the old build that have to be removed before makes of the new one, in ascending
/// order of their bytes: those that an old recipe wrote and that the new build doesn't have, and
/// those that a recipe of the new build writes, if it isn't made in every make, and the old build
/// has no recipe with its target, or a doubted one, one with other commands, one that writes other
/// files, one that reads other files, or one that read a makefile text of it. The only error is out
/// of memory.
pub fn named_files(alloc: Global, past: &Past, subject: &Subject<'_>) -> Result<Names, AllocError>
    ensures sorted { IfOk result (λ names. IsSorted (slice_cmp nat_cmp) names) }
    ensures named { IfOk result (λ names. AreNamedBy past.now subject.now names) }
{
    let names = noted(alloc, past, subject)?;
    let copies = in_order(alloc, &names)?;
    Ok(copies)
}
