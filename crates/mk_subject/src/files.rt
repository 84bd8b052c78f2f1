//! The table of the files that recipes read or write.

ghost use Rattle.std.specs.Prelude.{◌≡◌, ◌++◌, ◌∷◌, ℕ, [], List, map, slice_get, Some, IfOk, OnOk};
ghost use Rattle.std.specs.Borrow.{Bor};
ghost use Rattle.std.specs.String.{string_bytes};
ghost use Rattle.mk_graph.specs.declared.node.Node.{Node as NodeValue};
ghost use Rattle.mk_build.specs.Setting as build;
ghost use Rattle.mk_subject.specs.FileInfo.{AreFiles, AreKnown, StandAt, known_by};
ghost use Rattle.mk_subject.specs.Subject.{footprints};
ghost use Rattle.mk_subject.specs.Writers.{numbers_at};

use crate::file_info::{FileInfo, Sources, known_of};
use crate::number_rows::NumberRows;
use crate::records::Records;
use crate::writers::Writers;
use indexmap::IndexSet;
use mk_graph::Node;
use mk_infer::RuleTable;
use mk_lines::BorrowedNames;
use std::alloc::{AllocError, Global};

/// The table of files: each once, with what is looked up for it, and for each node the indices of
/// its files. The names of nodes come first, so that the rows of successive recipes lie close
/// together.
#[derive(Drop)]
pub struct Files<'a> {
    /// Their names.
    pub names: IndexSet<&'a str>,
    /// What is looked up for each, at its index.
    pub known: Vec<FileInfo>,
    /// For each node, at its number, the index of the file with its name.
    pub nodes: Vec<usize>,
    /// For each node, at its number, the indices of the files that its recipe writes, in the order
    /// of its record.
    pub writes: NumberRows,
    /// The same for the files that its recipe reads.
    pub reads: NumberRows,
}

/// The index of a file, which is added with its facts if it is new.
fn place_for<'a>(
    sources: &Sources<'_, '_, '_>,
    files: &mut IndexSet<&'a str>,
    known: &mut Vec<FileInfo>,
    file: &'a str,
) -> Result<usize, AllocError>
    requires { AreKnown (known_by sources.now.table.now sources.now.setting.now
        (numbers_at sources.now.writers.now) sources.now.names.now) files.old.keys known.old.items }
    ensures all { OnOk result (AreKnown (known_by sources.now.table.now sources.now.setting.now
        (numbers_at sources.now.writers.now) sources.now.names.now) files.new.keys
        known.new.items) }
    ensures more { OnOk result ((rest : List (Bor (List ℕ))) ×
        (files.new.keys ≡ files.old.keys ++ rest)) }
    ensures here { IfOk result (λ place.
        slice_get (map (λ f. f.now) files.new.keys) place ≡ Some file.entry.now) }
{
    let (place, is_new) = files.insert_full(file)?;
    if is_new {
        known.push(known_of(sources, file)?)?;
    }
    Ok(place)
}

/// The indices of the names of the nodes.
fn places_of_nodes<'a>(
    sources: &Sources<'_, '_, '_>,
    files: &mut IndexSet<&'a str>,
    known: &mut Vec<FileInfo>,
    nodes: &'a [Node],
) -> Result<Vec<usize>, AllocError>
    requires { AreKnown (known_by sources.now.table.now sources.now.setting.now
        (numbers_at sources.now.writers.now) sources.now.names.now) files.old.keys known.old.items }
    ensures all { OnOk result (AreKnown (known_by sources.now.table.now sources.now.setting.now
        (numbers_at sources.now.writers.now) sources.now.names.now) files.new.keys
        known.new.items) }
    ensures here { IfOk result (λ places. StandAt (map (λ f. f.now) files.new.keys) places.items
        (map (λ (n : NodeValue). n.name) nodes.entry.now)) }
{
    let mut places = Vec::with_capacity(sources.alloc, nodes.len())?;
    for node in nodes {
        let place = place_for(sources, files, known, node.name.as_str())?;
        places.push(place)?;
    }
    Ok(places)
}

/// The indices of the files that a record lists.
fn places_for<'a>(
    sources: &Sources<'_, '_, '_>,
    files: &mut IndexSet<&'a str>,
    known: &mut Vec<FileInfo>,
    listed: &'a [String],
) -> Result<Vec<usize>, AllocError>
    requires { AreKnown (known_by sources.now.table.now sources.now.setting.now
        (numbers_at sources.now.writers.now) sources.now.names.now) files.old.keys known.old.items }
    ensures all { OnOk result (AreKnown (known_by sources.now.table.now sources.now.setting.now
        (numbers_at sources.now.writers.now) sources.now.names.now) files.new.keys
        known.new.items) }
    ensures more { OnOk result ((rest : List (Bor (List ℕ))) ×
        (files.new.keys ≡ files.old.keys ++ rest)) }
    ensures here { IfOk result (λ places. StandAt (map (λ f. f.now) files.new.keys) places.items
        (map string_bytes listed.entry.now)) }
{
    let mut places = Vec::with_capacity(sources.alloc, listed.len())?;
    for file in listed {
        let place = place_for(sources, files, known, file.as_str())?;
        places.push(place)?;
    }
    Ok(places)
}

/// Appends a row with the indices of the files that a record lists.
fn push_row<'a>(
    sources: &Sources<'_, '_, '_>,
    files: &mut IndexSet<&'a str>,
    known: &mut Vec<FileInfo>,
    listed: &'a [String],
    rows: &mut NumberRows,
) -> Result<(), AllocError>
    requires { AreKnown (known_by sources.now.table.now sources.now.setting.now
        (numbers_at sources.now.writers.now) sources.now.names.now) files.old.keys known.old.items }
    ensures all { OnOk result (AreKnown (known_by sources.now.table.now sources.now.setting.now
        (numbers_at sources.now.writers.now) sources.now.names.now) files.new.keys
        known.new.items) }
    ensures more { OnOk result ((rest : List (Bor (List ℕ))) ×
        (files.new.keys ≡ files.old.keys ++ rest)) }
    ensures here { OnOk result ((row : List ℕ) × (rows.new ≡ rows.old ++ row ∷ []) ×
        StandAt (map (λ f. f.now) files.new.keys) row (map string_bytes listed.entry.now)) }
{
    let places = places_for(sources, files, known, listed)?;
    rows.push(&places)
}

/// Builds the table of the files of all nodes, in time linear in the records. The only error is out
/// of memory.
pub fn files_of<'a, 's>(
    alloc: Global,
    table: &'s RuleTable<'_>,
    records: &Records<'a>,
    writers: &'s Writers<'a>,
    names: &'s BorrowedNames<'a>,
) -> Result<Files<'a>, AllocError>
    ensures { IfOk result (λ files. AreFiles
        (known_by table.now records.now.setting (numbers_at writers.now) names.now)
        (map (λ (n : NodeValue). n.name) records.now.graph.nodes)
        (build.writes records.now.graph (footprints records.now.setting))
        (build.reads records.now.graph (footprints records.now.setting))
        (map (λ f. f.now) files.names.keys) files.known.items files.nodes.items
        files.writes files.reads) }
{
    let sources = Sources {
        alloc,
        table,
        setting: records.setting(),
        writers,
        names,
    };
    let graph = records.graph();
    let count = graph.nodes().len();
    let mut files = IndexSet::new(alloc);
    let mut known = Vec::new(alloc);
    let nodes = places_of_nodes(&sources, &mut files, &mut known, graph.nodes())?;
    let mut writes = NumberRows::with_capacity(alloc, count)?;
    let mut reads = NumberRows::with_capacity(alloc, count)?;
    for number in 0..count {
        let written = records.writes_of(number);
        push_row(&sources, &mut files, &mut known, written, &mut writes)?;
        let read = records.reads_of(number);
        push_row(&sources, &mut files, &mut known, read, &mut reads)?;
    }
    Ok(Files {
        names: files,
        known,
        nodes,
        writes,
        reads,
    })
}
