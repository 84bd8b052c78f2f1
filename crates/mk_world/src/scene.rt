//! The graph and the recorded inputs, which no step changes.

ghost use Rattle.std.specs.Prelude.{◌≡◌, ◌<◌, ◌≤◌, length, map, true, IfOk};
ghost use Rattle.mk_foot.specs.Setting as recorded;
ghost use Rattle.mk_graph.specs.declared.node.Node as declared;
ghost use Rattle.mk_graph.specs.Graph.{max_nodes};
ghost use Rattle.mk_world.specs.State.{number_of, setting};
ghost use Rattle.mk_world.specs.Fits.{footprint};
ghost use Rattle.mk_world.specs.Running.{is_node};

use crate::footprints::{Footprint, footprints_of};
use mk_foot::Setting;
use mk_graph::Graph;
use mk_lines::BorrowedNames;
use std::alloc::{AllocError, Global};
use std::marker::Model;

/// The graph and the recorded inputs, with a lookup of nodes by name, and the footprint of each
/// node.
#[derive(Drop)]
pub struct Scene<'a> {
    graph: &'a Graph,
    recorded: &'a Setting,
    numbers: BorrowedNames<'a>,
    footprints: Vec<Footprint<'a>>,
}

impl<'a> Model for Scene<'a> {
    ghost use Rattle.std.specs.Prelude.{◌≡◌, map};
    ghost use Rattle.mk_graph.specs.declared.node.Node.{Node};
    ghost use Rattle.mk_graph.specs.Graph.{IsGraph};
    ghost use Rattle.mk_world.specs.State as state;
    ghost use Rattle.mk_world.specs.Fits.{AreFootprints};

    ghost Value = { state.Scene };

    ghost view = { λ s. record { graph = s.graph.now; recorded = s.recorded.now } };

    ghost invariant = { λ s. IsGraph s.graph.now ×
        (s.numbers ≡ map (λ (n : Node). n.name) s.graph.now.nodes) ×
        AreFootprints s.graph.now (state.setting_of s.recorded.now) s.footprints.items };
}

/// The names of a graph's nodes, each at its number. The only error is out of memory.
fn numbers_of<'a>(alloc: Global, graph: &'a Graph) -> Result<BorrowedNames<'a>, AllocError>
    ensures { IfOk result (λ names. names ≡
        map (λ (n : declared.Node). n.name) graph.entry.now.nodes) }
{
    let nodes = graph.nodes();
    let mut names = BorrowedNames::with_capacity(alloc, nodes.len())?;
    for node in nodes {
        names.insert(node.name.as_str())?;
    }
    Ok(names)
}

impl<'a> Scene<'a> {
    /// The scene of a graph and recorded inputs. The only error is out of memory.
    pub fn new(
        alloc: Global,
        graph: &'a Graph,
        recorded: &'a Setting,
    ) -> Result<Scene<'a>, AllocError>
        ensures { IfOk result (λ scene. scene ≡
            record { graph = graph.entry.now; recorded = recorded.entry.now }) }
    {
        Ok(Scene {
            graph,
            recorded,
            numbers: numbers_of(alloc, graph)?,
            footprints: footprints_of(alloc, recorded, graph.nodes())?,
        })
    }

    /// The graph.
    pub fn graph(&self) -> &'a Graph
        ensures { result.now ≡ self.now.graph }
    {
        self.graph
    }

    /// Whether a node has this name.
    pub fn has_node(&self, name: &str) -> bool
        ensures { result ≡ is_node self.now.graph name.now }
    {
        self.numbers.contains(name)
    }

    /// Whether a file is editable.
    pub fn is_editable(&self, file: &str) -> bool
        ensures { result ≡ recorded.is_editable self.now.recorded file.now }
    {
        self.recorded.is_editable(file)
    }

    /// The number of the node with this name, or the number of nodes if there is none.
    pub fn number(&self, name: &str) -> usize
        ensures { result ≡ number_of self.now.graph name.now }
    {
        self.numbers.number_of(name)
    }

    /// The files that the recipe of a node reads and writes.
    pub fn footprint(&self, number: usize) -> &Footprint<'a>
        requires { number < length self.now.graph.nodes }
        ensures value { result.now ≡ footprint self.now.graph (setting self.now) number }
        ensures few { length self.now.graph.nodes ≤ max_nodes }
    {
        &self.footprints[number]
    }
}
