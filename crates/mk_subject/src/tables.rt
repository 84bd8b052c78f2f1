//! The tables of a subject.

ghost use Rattle.std.specs.Prelude.{◌≡◌, [], map, IfErr, IfOk};
ghost use Rattle.mk_graph.specs.Graph.{IsGraph};
ghost use Rattle.mk_subject.specs.Subject.{subject_of};
ghost use Rattle.mk_subject.specs.NodeRow.{AreRows, IsFaultOf};
ghost use Rattle.mk_subject.specs.Tables.{AreTables};

use crate::files::{Files, files_of};
use crate::looking_up::entries_for;
use crate::node_row::NodeRow;
use crate::number_rows::NumberRows;
use crate::records::Records;
use crate::settled::unsettled_places;
use crate::way_tables::node_names;
use crate::writers::writers_among;
use mk_foot::Setting;
use mk_graph::Graph;
use mk_graph::laws::serial_reaches_each_once;
use mk_infer::{Exists, InferFault, RuleTable};
use mk_lines::BorrowedNames;
use std::alloc::Global;

/// The tables of a subject, each built once.
#[derive(Drop)]
pub struct Tables<'a> {
    /// The entry of each node, in the serial order.
    pub entries: Vec<NodeRow<'a>>,
    /// The names of the nodes, each at its number.
    pub names: BorrowedNames<'a>,
    /// The files with the names of nodes, and those that recipes read or write.
    pub files: Files<'a>,
    /// For each node, at its number, the indices of the files that its recipe reads and that aren't
    /// settled.
    pub unsettled: NumberRows,
}

/// The entry of each node; its contract also says that the graph is a valid one.
fn entries_in<'a>(
    alloc: Global,
    table: &RuleTable<'_>,
    exists: &Exists<'_>,
    records: &Records<'a>,
) -> Result<Vec<NodeRow<'a>>, InferFault>
    requires { exists.now.more ≡ [] }
    ensures graph { IsGraph records.now.graph }
    ensures entries { IfOk result (λ entries. AreRows
        (subject_of table.now exists.now
        records.now.graph records.now.setting) entries.items) }
    ensures fault { IfErr result (λ fault. IsFaultOf
        (subject_of table.now exists.now
        records.now.graph records.now.setting) fault) }
{
    let _nodes = records.graph().nodes();
    entries_for(alloc, table, exists, records)
}

/// Builds all tables. The error is the first fault of the nodes' commands, or out of memory.
pub fn tables_for<'a>(
    alloc: Global,
    table: &RuleTable<'_>,
    exists: &Exists<'_>,
    graph: &'a Graph,
    setting: &'a Setting,
) -> Result<Tables<'a>, InferFault>
    requires { exists.now.more ≡ [] }
    ensures tables { IfOk result (λ t. AreTables
        (subject_of table.now exists.now graph.now setting.now)
        t.entries.items t.names (map (λ name. name.now) t.files.names.keys) t.files.known.items
        t.files.nodes.items t.files.writes t.files.reads t.unsettled) }
    ensures fault { IfErr result (λ fault. IsFaultOf
        (subject_of table.now exists.now graph.now setting.now) fault) }
{
    serial_reaches_each_once();
    let records = Records::new(alloc, graph, setting)?;
    let entries = entries_in(alloc, table, exists, &records)?;
    let writers = writers_among(alloc, &entries)?;
    let names = node_names(alloc, graph)?;
    let files = files_of(alloc, table, &records, &writers, &names)?;
    let unsettled = unsettled_places(alloc, &files.known, &files.reads)?;
    Ok(Tables {
        entries,
        names,
        files,
        unsettled,
    })
}
