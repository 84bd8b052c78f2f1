//! The table of the nodes that write each file.

ghost use Rattle.std.specs.Prelude.{◌≡◌, ◌∷◌, ◌++◌, [], List, ℕ, map, filter, IfOk, OnOk, if◌then◌else◌};
ghost use Rattle.std.specs.Str.{bytes_eq};
ghost use Rattle.std.specs.String.{string_bytes};
ghost use Rattle.mk_lines.specs.Names.{has_name};
ghost use Rattle.mk_subject.specs.NodeRow.{row_writes};
ghost use Rattle.mk_subject.specs.Writers.{numbers_at};

use crate::file_writers::FileWriters;
use crate::node_row::NodeRow;
use indexmap::IndexMap;
use mk_foot::{empty_seen_set, is_repeated};
use std::alloc::{AllocError, Global};

/// For each file the numbers of the nodes that write it, in the serial order.
pub type Writers<'a> = IndexMap<&'a str, FileWriters>;

/// Appends a writer of a file.
fn add_writer<'a>(
    alloc: Global,
    writers: &mut Writers<'a>,
    file: &'a str,
    number: usize,
) -> Result<(), AllocError>
    ensures { OnOk result ((name : List ℕ) →
        numbers_at writers.new name ≡ (if bytes_eq name file.entry.now
        then numbers_at writers.old name ++ number ∷ [] else numbers_at writers.old name)) }
{
    let numbers = writers.entry(file)?.or_insert(FileWriters::new(alloc));
    numbers.push(number)?;
    Ok(())
}

/// Appends a node as a writer of each of these files, once per file.
fn add_files<'a>(
    alloc: Global,
    writers: &mut Writers<'a>,
    files: &'a [String],
    number: usize,
) -> Result<(), AllocError>
    ensures { OnOk result ((name : List ℕ) →
        numbers_at writers.new name ≡ (if has_name (map string_bytes files.now) name
        then numbers_at writers.old name ++ number ∷ [] else numbers_at writers.old name)) }
{
    let mut seen = empty_seen_set(alloc, files.len())?;
    for place in 0..files.len() {
        if is_repeated(files, place, &mut seen)? {
            continue;
        }
        add_writer(alloc, writers, files[place].as_str(), number)?;
    }
    Ok(())
}

/// The numbers of the nodes that write a file; empty where there are none.
pub fn writers_at<'a>(writers: &'a Writers<'_>, file: &str) -> &'a [usize]
    ensures { result.now ≡ numbers_at writers.entry.now file.now }
{
    match writers.get(file) {
        Some(numbers) => numbers.as_slice(),
        None => &[],
    }
}

/// The table of which of these nodes write each file. The only error is out of memory.
pub fn writers_among<'a>(alloc: Global, entries: &[NodeRow<'a>]) -> Result<Writers<'a>, AllocError>
    ensures { IfOk result (λ writers. (name : List ℕ) →
        numbers_at writers name ≡ map (λ e. e.number)
        (filter (λ e. has_name (row_writes e) name) entries.now)) }
{
    let mut writers = IndexMap::new(alloc);
    for entry in entries {
        add_files(alloc, &mut writers, entry.writes(), entry.number)?;
    }
    Ok(writers)
}
