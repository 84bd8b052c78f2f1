//! The first cycle of what the nodes of a build need.

ghost use Rattle.std.specs.Prelude.{◌≡◌, ◌<◌, ◌++◌, ◌==◌, ℕ, List, map, not, filter, length, IfOk, OnOk};
ghost use Rattle.std.specs.List.{flat_map};
ghost use Rattle.std.specs.String.{string_bytes};
ghost use Rattle.mk_subject.specs.NodeRow.{writers_of};
ghost use Rattle.mk_subject.specs.Subject.{footprints, name_of, reads_of};
ghost use Rattle.mk_graph.specs.Progress.{row};
ghost use Rattle.mk_build_needs.specs.Needs.{more_needs, writers_of_reads};
ghost use Rattle.mk_build_needs.specs.NeedsGraph.{IsFirstCycle, needs_graph};

use mk_build_needs::first_cycle;
use mk_build_needs::laws::{needs_are_these, rows_give_needs};
use mk_core::Names;
use mk_subject::Subject;
use std::alloc::{AllocError, Global};

/// Appends the writers of a file but the node with this number. The only error is out of memory.
fn push_others(row: &mut Vec<usize>, writers: &[usize], number: usize) -> Result<(), AllocError>
    ensures { OnOk result (row.new.items ≡ row.old.items ++
        filter (λ writer. not (writer == number)) writers.now) }
{
    for writer in writers {
        if *writer != number {
            row.push(*writer)?;
        }
    }
    Ok(())
}

/// The writers of these files but the node with this number. The only error is out of memory.
fn writers_of_files(
    alloc: Global,
    subject: &Subject<'_>,
    files: &[String],
    number: usize,
) -> Result<Vec<usize>, AllocError>
    ensures { IfOk result (λ row. row.items ≡ filter (λ writer. not (writer == number))
        (flat_map (writers_of subject.now) (map string_bytes files.now))) }
{
    let mut row = Vec::new(alloc);
    for file in files {
        push_others(&mut row, subject.writers(file.as_str()), number)?;
    }
    Ok(row)
}

/// The other recipes that write what the recipe of a node reads. The only error is out of memory.
fn writers_of_reads(
    alloc: Global,
    subject: &Subject<'_>,
    number: usize,
) -> Result<Vec<usize>, AllocError>
    requires { number < length subject.now.graph.nodes }
    ensures { IfOk result (λ row. row.items ≡ filter (λ writer. not (writer == number))
        (flat_map (writers_of subject.now) (reads_of subject.now number))) }
{
    let graph = subject.graph();
    let node = &graph.nodes()[number];
    if !node.recipe {
        return Ok(Vec::new(alloc));
    }
    match subject.setting().record_of(node.name.as_str()) {
        Some(record) => writers_of_files(alloc, subject, &record.reads, number),
        None => Ok(Vec::new(alloc)),
    }
}

/// What a node needs beside its direct prerequisites: the other recipes that write what its recipe
/// reads and, if it has no recipe, the recipes that write its file. The only error is out of
/// memory.
fn needs_of(alloc: Global, subject: &Subject<'_>, number: usize) -> Result<Vec<usize>, AllocError>
    requires { number < length subject.now.graph.nodes }
    ensures { IfOk result (λ row. row.items ≡
        more_needs subject.now.graph (footprints subject.now.setting) number) }
{
    let mut row = writers_of_reads(alloc, subject, number)?;
    let graph = subject.graph();
    if !graph.nodes()[number].recipe {
        row.extend_from_slice(subject.writers(subject.name(number)))?;
    }
    Ok(row)
}

/// For each node what it needs beside its direct prerequisites. The only error is out of memory.
fn rows_of_needs(alloc: Global, subject: &Subject<'_>) -> Result<Vec<Vec<usize>>, AllocError>
    ensures count { IfOk result (λ rows.
        length rows.items ≡ length subject.now.graph.nodes) }
    ensures rows { IfOk result (λ rows. (number : ℕ) → number < length subject.now.graph.nodes →
        row rows.items number ≡
        more_needs subject.now.graph (footprints subject.now.setting) number) }
{
    let mut rows = Vec::new(alloc);
    for number in 0..subject.graph().nodes().len() {
        rows.push(needs_of(alloc, subject, number)?)?;
    }
    Ok(rows)
}

/// The names along the first cycle of what the nodes need, with the first name repeated at the end;
/// `None` if there is no cycle. The only error is out of memory.
pub fn cycle_of_needs(alloc: Global, subject: &Subject<'_>) -> Result<Option<Names>, AllocError>
    ensures { IfOk result (λ cycle. IsFirstCycle
        (needs_graph subject.now.graph (footprints subject.now.setting)) cycle) }
{
    rows_give_needs();
    needs_are_these();
    let rows = rows_of_needs(alloc, subject)?;
    first_cycle(alloc, subject.graph(), &rows)
}
