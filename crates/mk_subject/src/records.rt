//! The records of the nodes of a graph.

ghost use Rattle.std.specs.Prelude.{◌≡◌, ◌<◌, length, map, IfOk};
ghost use Rattle.std.specs.Option.{option_copied};
ghost use Rattle.std.specs.String.{string_bytes};
ghost use Rattle.mk_lines.specs.Names.{once};
ghost use Rattle.mk_foot.specs.Setting as foot;
ghost use Rattle.mk_graph.specs.Graph.{node};
ghost use Rattle.mk_build.specs.Setting as build;
ghost use Rattle.mk_subject.specs.NodeRow.{reads_in};
ghost use Rattle.mk_subject.specs.Records.{HaveDistinctReads, recorded_of, records_for};
ghost use Rattle.mk_subject.specs.Subject.{footprints};

use crate::node_row::{reads_in, writes_in};
use mk_foot::{Record, Setting};
use mk_graph::Graph;
use std::alloc::{AllocError, Global};
use std::marker::Model;

/// The record of each node of a graph, looked up once. Its model is the graph and the footprints.
#[derive(Drop)]
pub struct Records<'a> {
    graph: &'a Graph,
    setting: &'a Setting,
    found: Vec<Option<&'a Record>>,
}

impl<'a> Model for Records<'a> {
    ghost use Rattle.std.specs.Prelude.{◌≡◌, map};
    ghost use Rattle.std.specs.Option.{option_copied};
    ghost use Rattle.mk_subject.specs.Records as value;

    ghost Value = { value.Recorded };

    ghost view = { λ r. value.recorded_of r.graph.now r.setting.now };

    ghost invariant = { λ r. (map (λ found. option_copied found) r.found.items ≡
        value.records_for r.graph.now r.setting.now) ×
        value.HaveDistinctReads (value.records_for r.graph.now r.setting.now) };
}

/// The record of each node, at its number.
fn found_for<'a>(
    alloc: Global,
    graph: &Graph,
    setting: &'a Setting,
) -> Result<Vec<Option<&'a Record>>, AllocError>
    ensures found { IfOk result (λ found. map (λ found. option_copied found) found.items ≡
        records_for graph.now setting.now) }
    ensures distinct { IfOk result (λ _. HaveDistinctReads (records_for graph.now setting.now)) }
{
    let nodes = graph.nodes();
    let mut found = Vec::with_capacity(alloc, nodes.len())?;
    for node in nodes {
        found.push(setting.record_of(node.name.as_str()))?;
    }
    Ok(found)
}

impl<'a> Records<'a> {
    /// Looks up the record of each node, in linear time. The only error is out of memory.
    pub fn new(
        alloc: Global,
        graph: &'a Graph,
        setting: &'a Setting,
    ) -> Result<Records<'a>, AllocError>
        ensures { IfOk result (λ records. records ≡ recorded_of graph.now setting.now) }
    {
        let found = found_for(alloc, graph, setting)?;
        Ok(Records {
            graph,
            setting,
            found,
        })
    }

    /// The graph.
    pub fn graph(&self) -> &'a Graph
        ensures { result.now ≡ self.now.graph }
    {
        self.graph
    }

    /// The footprints and build inputs.
    pub fn setting(&self) -> &'a Setting
        ensures { result.now ≡ self.now.setting }
    {
        self.setting
    }

    /// The record of a node, if it has one. It lists no read twice.
    pub fn at(&self, number: usize) -> Option<&'a Record>
        requires { number < length self.now.graph.nodes }
        ensures found { option_copied result ≡
            foot.record_for self.now.setting.records (node self.now.graph number).name }
        ensures distinct { once (reads_in (option_copied result)) ≡
            reads_in (option_copied result) }
    {
        self.found[number]
    }

    /// The files that the recipe of a node reads.
    pub fn reads_of(&self, number: usize) -> &'a [String]
        requires { number < length self.now.graph.nodes }
        ensures { map string_bytes result.now ≡
            build.reads self.now.graph (footprints self.now.setting) number }
    {
        if self.graph().nodes()[number].recipe {
            reads_in(self.at(number))
        } else {
            &[]
        }
    }

    /// The files that the recipe of a node writes.
    pub fn writes_of(&self, number: usize) -> &'a [String]
        requires { number < length self.now.graph.nodes }
        ensures { map string_bytes result.now ≡
            build.writes self.now.graph (footprints self.now.setting) number }
    {
        if self.graph().nodes()[number].recipe {
            writes_in(self.at(number))
        } else {
            &[]
        }
    }
}
