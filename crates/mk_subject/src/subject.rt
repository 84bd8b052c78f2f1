//! The input of all checks, with its tables.

ghost use Rattle.std.specs.Prelude.{◌≡◌, ◌<◌, ◌≤◌, List, ℕ, [], false, length, map, slice_get, slice_index_or, Ok, Some, IfErr, IfOk, MatchOption};
ghost use Rattle.mk_graph.specs.Graph.{IsGraph};
ghost use Rattle.mk_graph.specs.Membership.{Has};
ghost use Rattle.mk_build.specs.Setting as build;
ghost use Rattle.mk_infer.specs.Selection.{Selects};
ghost use Rattle.mk_subject.specs.FileInfo.{all_names, known_of};
ghost use Rattle.mk_subject.specs.Subject.{Subject as SubjectValue, IsSubject, name_of, reads_of, subject_of, writes_of};
ghost use Rattle.mk_subject.specs.Target.{target_of, unsettled_of};
ghost use Rattle.mk_subject.specs.NodeRow.{AreRows, IsRow, IsFaultOf, row_reads, writers_of};

use crate::files::Files;
use crate::node_row::NodeRow;
use crate::tables::{Tables, tables_for};
use crate::target::Target;
use mk_foot::Setting;
use mk_graph::Graph;
use mk_infer::{Exists, InferFault, RuleTable};
use mk_lines::BorrowedNames;
use mk_read::Makefile;
use std::alloc::Global;
use std::marker::Model;

/// The file at an index of the table.
fn target_at<'s>(files: &'s Files<'_>, at: usize) -> Target<'s>
    requires { at < length files.now.known.items }
    ensures { (x : SubjectValue) (f : List ℕ) →
        files.entry.now.known.items ≡
        map (known_of x) (map (λ name. name.now) files.entry.now.names.keys) →
        slice_get (map (λ name. name.now) files.entry.now.names.keys) at ≡ Some f →
        result ≡ target_of x f }
{
    let file = match files.names.get_index(at) {
        Some(name) => *name,
        None => "",
    };
    Target {
        file,
        place: at,
        known: &files.known[at],
    }
}

/// What is judged: a makefile, the files that exist, the graph of the goals, and the footprints.
/// The tables over them are built once, in time linear in their size. Its model is these four.
#[derive(Drop)]
pub struct Subject<'a> {
    table: &'a RuleTable<'a>,
    there: Exists<'a>,
    graph: &'a Graph,
    setting: &'a Setting,
    tables: Tables<'a>,
}

impl<'a> Model for Subject<'a> {
    ghost use Rattle.mk_subject.specs.Subject as value;
    ghost use Rattle.mk_subject.specs.Kept.{AreTablesOf};

    ghost Value = { value.Subject };

    ghost view = { λ s. value.subject_of s.table.now s.there s.graph.now s.setting.now };

    ghost invariant = { λ s. AreTablesOf
        (value.subject_of s.table.now s.there s.graph.now s.setting.now) s.tables };
}

impl<'a> Subject<'a> {
    /// Builds the subject. Takes time linear in the makefile, the graph and the records. The error
    /// is the first fault of the nodes' commands (11 to 17), in the serial order, or out of memory.
    ///
    /// The caller must show that the graph is the one selected for the makefile and the existing
    /// files, and that these are exactly the sources, fixed prefixes and texts of the setting.
    pub fn new(
        alloc: Global,
        table: &'a RuleTable<'a>,
        exists: Exists<'a>,
        graph: &'a Graph,
        setting: &'a Setting,
    ) -> Result<Subject<'a>, InferFault>
        requires selected { Selects table.now exists
            (map (build.name graph.now) graph.now.goals) (Ok graph.now) }
        requires no_leaf { exists.any_leaf ≡ false }
        requires nothing_more { exists.more ≡ [] }
        requires sources { exists.sources ≡ setting.now.sources }
        requires fixed { exists.fixed ≡ setting.now.fixed }
        requires texts { exists.texts ≡ setting.now.texts }
        ensures value { IfOk result (λ subject. subject ≡
            subject_of table.now exists.entry graph.now setting.now) }
        ensures subject { IfOk result (λ subject. IsSubject subject) }
        ensures fault { IfErr result (λ fault. IsFaultOf
            (subject_of table.now exists.entry graph.now setting.now) fault) }
    {
        let tables = tables_for(alloc, table, &exists, graph, setting)?;
        Ok(Subject {
            table,
            there: exists,
            graph,
            setting,
            tables,
        })
    }

    /// The rules of the makefile, by their targets.
    pub fn table(&self) -> &RuleTable<'a>
        ensures { result.now ≡ self.now.makefile }
    {
        self.table
    }

    /// The makefile.
    pub fn makefile(&self) -> &Makefile
        ensures { result.now ≡ self.now.makefile }
    {
        self.table.makefile()
    }

    /// The files that exist before any recipe runs.
    pub fn there(&self) -> &Exists<'a>
        ensures { result.now ≡ self.now.there }
    {
        &self.there
    }

    /// The graph of the goals.
    pub fn graph(&self) -> &Graph
        ensures value { result.now ≡ self.now.graph }
        ensures graph { IsGraph self.now.graph }
        ensures subject { IsSubject self.now }
    {
        self.graph
    }

    /// The footprints and build inputs.
    pub fn setting(&self) -> &Setting
        ensures { result.now ≡ self.now.setting }
    {
        self.setting
    }

    /// The entry of each node, in the serial order.
    pub fn entries(&self) -> &[NodeRow<'a>]
        ensures { AreRows self.now result.now }
    {
        self.tables.entries.as_slice()
    }

    /// The file with this name; `None` if no recipe reads or writes it and no node has its name.
    /// Doesn't allocate.
    pub fn file(&self, name: &str) -> Option<Target<'_>>
        ensures { MatchOption result
            ((t : ℕ) → (¬ (Has (writes_of self.now t) name.now)) ×
            (¬ (Has (reads_of self.now t) name.now)))
            (λ file. file ≡ target_of self.now name.now) }
    {
        match self.tables.files.names.get_full(name) {
            Some((at, _)) => Some(target_at(&self.tables.files, at)),
            None => None,
        }
    }

    /// The numbers of the nodes that write a file, in the serial order. Doesn't allocate.
    pub fn writers(&self, file: &str) -> &[usize]
        ensures { result.now ≡ writers_of self.now file.now }
    {
        match self.file(file) {
            Some(file) => file.writers(),
            None => &[],
        }
    }

    /// The name of a node.
    pub fn name(&self, number: usize) -> &str
        requires { number < length self.now.graph.nodes }
        ensures { result.now ≡ name_of self.now number }
    {
        self.graph().nodes()[number].name.as_str()
    }

    /// The names of the nodes, each at its number.
    pub fn names(&self) -> &BorrowedNames<'a>
        ensures { result.now ≡ all_names self.now }
    {
        &self.tables.names
    }

    /// The numbers of the nodes that write the file with the name of a node, in the serial order.
    /// Doesn't allocate.
    pub fn writers_of_node(&self, number: usize) -> &[usize]
        requires { number < length self.now.graph.nodes }
        ensures { result.now ≡ writers_of self.now (name_of self.now number) }
    {
        let at = self.tables.files.nodes[number];
        self.tables.files.known[at].writers.as_slice()
    }

    /// The file with the name of a node. Doesn't allocate.
    pub fn file_of_node(&self, number: usize) -> Target<'_>
        requires { number < length self.now.graph.nodes }
        ensures { result ≡ target_of self.entry.now (name_of self.entry.now number) }
    {
        let place = self.tables.files.nodes[number];
        target_at(&self.tables.files, place)
    }

    /// How many files the recipe of a node writes. Doesn't allocate.
    pub fn count_of_written(&self, number: usize) -> usize
        ensures { result ≡ length (writes_of self.now number) }
    {
        self.tables.files.writes.at(number).len()
    }

    /// The file at `place` among those that the recipe of a node writes. Doesn't allocate.
    pub fn written(&self, number: usize, place: usize) -> Target<'_>
        requires { place < length (writes_of self.now number) }
        ensures { result ≡ target_of self.entry.now
            (slice_index_or (writes_of self.entry.now number) place []) }
    {
        let at = self.tables.files.writes.at(number)[place];
        target_at(&self.tables.files, at)
    }

    /// How many files the recipe of a node reads. Doesn't allocate.
    pub fn count_of_reads(&self, number: usize) -> usize
        ensures { result ≡ length (reads_of self.now number) }
    {
        self.tables.files.reads.at(number).len()
    }

    /// How many unsettled files the recipe of a node reads. Doesn't allocate.
    pub fn count_of_unsettled(&self, number: usize) -> usize
        ensures { result ≡ length (unsettled_of self.now number) }
    {
        self.tables.unsettled.at(number).len()
    }

    /// How many unsettled reads all recipes have together; a bound for each of them. Doesn't
    /// allocate.
    pub fn count_of_all_unsettled(&self) -> usize
        ensures { (t : ℕ) → length (unsettled_of self.now t) ≤ result }
    {
        self.tables.unsettled.total()
    }

    /// The file at `place` among the unsettled ones that the recipe of a node reads. Doesn't
    /// allocate.
    pub fn unsettled(&self, number: usize, place: usize) -> Target<'_>
        requires { place < length (unsettled_of self.now number) }
        ensures { result ≡ target_of self.entry.now
            (slice_index_or (unsettled_of self.entry.now number) place []) }
    {
        let at = self.tables.unsettled.at(number)[place];
        target_at(&self.tables.files, at)
    }

    /// The file at `place` among those that the recipe of a node reads. Doesn't allocate.
    pub fn read(&self, row: &NodeRow<'_>, place: usize) -> Target<'_>
        requires row { IsRow self.now row.now }
        requires place { place < length (row_reads row.now) }
        ensures { result ≡ target_of self.entry.now
            (slice_index_or (reads_of self.entry.now row.now.number) place []) }
    {
        let at = self.tables.files.reads.at(row.number)[place];
        target_at(&self.tables.files, at)
    }
}
