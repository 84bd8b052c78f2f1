//! The rules that name files.

ghost use Rattle.std.specs.Prelude.{◌≡◌, map, IfOk};
ghost use Rattle.std.specs.String.{string_bytes};
ghost use Rattle.mk_lines.specs.Names.{has_name};
ghost use Rattle.mk_subject.specs.NodeRow.{lines_eq};
ghost use Rattle.mk_subject.specs.Subject.{all_writes};
ghost use Rattle.mk_since.specs.Parts.{are_among, are_others, cant_stay, has_file, is_other, read_text};

use crate::past::Past;
use crate::past_recipe::PastRecipe;
use mk_subject::{NameList, NodeRow, Subject};
use std::alloc::{AllocError, Global};

/// Whether a recipe of the build writes the file. Allocates nothing.
fn is_written(subject: &Subject<'_>, file: &str) -> bool
    ensures { result ≡ has_name (all_writes subject.now) file.now }
{
    let writers = subject.writers(file);
    !writers.is_empty()
}

/// Whether the build has the file: it is given, or a recipe writes it. Allocates nothing.
pub fn has_file(subject: &Subject<'_>, file: &str) -> bool
    ensures { result ≡ has_file subject.now file.now }
{
    subject.setting().is_given(file) || is_written(subject, file)
}

/// Whether these lines equal the texts.
fn are_texts(lines: &[Vec<u8>], texts: &[String]) -> bool
    ensures { result ≡
        lines_eq (map (λ line. line.items) lines.now) (map string_bytes texts.now) }
{
    if lines.len() != texts.len() {
        return false;
    }
    for (place, line) in lines.iter().enumerate() {
        if line.as_slice() != texts[place].as_bytes() {
            return false;
        }
    }
    true
}

/// Whether both lists have the same lines.
fn are_lines(lines: &[Vec<u8>], own: &[Vec<u8>]) -> bool
    ensures { result ≡
        lines_eq (map (λ line. line.items) lines.now) (map (λ line. line.items) own.now) }
{
    if lines.len() != own.len() {
        return false;
    }
    for (place, line) in lines.iter().enumerate() {
        if line.as_slice() != own[place].as_slice() {
            return false;
        }
    }
    true
}

/// Whether these lines equal the commands of the node. Allocates nothing.
fn are_commands(lines: &[Vec<u8>], row: &NodeRow<'_>) -> bool
    ensures { result ≡ lines_eq (map (λ line. line.items) lines.now) row.now.commands.lines }
{
    if row.others {
        return are_lines(lines, &row.own);
    }
    match row.recorded {
        Some(record) => are_texts(lines, &record.commands),
        None => are_lines(lines, &row.own),
    }
}

/// Whether all of the names are among the others. The only error is out of memory.
fn are_among(alloc: Global, names: &[String], others: &[String]) -> Result<bool, AllocError>
    ensures { IfOk result (λ all. all ≡
        are_among (map string_bytes names.now) (map string_bytes others.now)) }
{
    let mut known = NameList::new(others);
    for name in names {
        known.note_use(alloc)?;
        if !known.has(name.as_str()) {
            return Ok(false);
        }
    }
    Ok(true)
}

/// Whether both lists have the same names in the same order.
fn are_equal(names: &[String], others: &[String]) -> bool
    ensures { result ≡ lines_eq (map string_bytes names.now) (map string_bytes others.now) }
{
    if names.len() != others.len() {
        return false;
    }
    for (place, name) in names.iter().enumerate() {
        if name.as_str() != others[place].as_str() {
            return false;
        }
    }
    true
}

/// Whether the lists have different names. The only error is out of memory.
fn are_others(alloc: Global, names: &[String], others: &[String]) -> Result<bool, AllocError>
    ensures { IfOk result (λ differ. differ ≡
        are_others (map string_bytes names.now) (map string_bytes others.now)) }
{
    if are_equal(names, others) {
        return Ok(false);
    }
    let same = are_among(alloc, names, others)? && are_among(alloc, others, names)?;
    Ok(!same)
}

/// Whether the old recipe read a makefile text of the build.
fn read_text(subject: &Subject<'_>, old: &PastRecipe) -> bool
    ensures { result ≡ read_text subject.now old.now }
{
    let texts = subject.setting().texts();
    for file in &old.reads {
        if texts.contains(file.as_str()) {
            return true;
        }
    }
    false
}

/// Whether what the old recipe wrote can't stay for the recipe of this node. The only error is out
/// of memory.
fn is_other(
    alloc: Global,
    subject: &Subject<'_>,
    old: &PastRecipe,
    row: &NodeRow<'_>,
) -> Result<bool, AllocError>
    ensures { IfOk result (λ other. other ≡ is_other subject.now old.now row.now) }
{
    Ok(
        !are_commands(&old.commands, row)
            || are_others(alloc, &old.writes, row.writes())?
            || are_others(alloc, &old.reads, row.reads())?
            || read_text(subject, old),
    )
}

/// Whether what the recipe of a node of the new build wrote before can't stay: the old build has no
/// recipe with its target, or a doubted one, one with other commands, one that writes other files,
/// one that reads other files, or one that read a makefile text of it. The only error is out of
/// memory.
pub fn cant_stay(
    alloc: Global,
    past: &Past,
    subject: &Subject<'_>,
    row: &NodeRow<'_>,
) -> Result<bool, AllocError>
    ensures { IfOk result (λ gone. gone ≡ cant_stay past.now subject.now row.now) }
{
    if past.doubts(row.name()) {
        return Ok(true);
    }
    match past.recipe(row.name()) {
        Some(old) => is_other(alloc, subject, old, row),
        None => Ok(true),
    }
}
