//! The graph of a makefile.

ghost use Rattle.std.specs.Prelude.{◌≡◌, ◌<◌, All, length, map, slice_index_or, IfOk};
ghost use Rattle.mk_graph.specs.Graph.{IsGraph, IsSound, no_node, prerequisites};
ghost use Rattle.mk_graph.specs.Build.{Builds};
ghost use Rattle.mk_graph.specs.Serial.{serial_order};

use crate::fault::GraphFault;
use crate::node::Node;
use crate::prerequisites::rows_of;
use crate::walk::{End, walk};
use mk_lines::Names;
use std::alloc::{AllocError, Global};
use std::marker::Model;

/// The most nodes that a graph may have.
pub const MAX_NODES: usize = 4096;

/// The nodes that the goals reach through prerequisites, without a cycle.
#[derive(Debug, Drop)]
pub struct Graph {
    nodes: Vec<Node>,
    goals: Vec<usize>,
    order: Vec<usize>,
    rows: Vec<Vec<usize>>,
}

impl Model for Graph {
    ghost use Rattle.std.specs.Prelude.{◌≡◌};
    ghost use Rattle.mk_graph.specs.Graph as value;
    ghost use Rattle.mk_graph.specs.Progress.{ArePrerequisiteRows};
    ghost use Rattle.mk_graph.specs.Serial.{serial_order};

    ghost Value = { value.Graph };

    ghost view = { λ g. record { nodes = g.nodes.items; goals = g.goals.items } };

    ghost invariant = { λ g.
        value.IsGraph (record { nodes = g.nodes.items; goals = g.goals.items }) ×
        (g.order.items ≡ serial_order (record { nodes = g.nodes.items; goals = g.goals.items })) ×
        ArePrerequisiteRows g.rows.items g.nodes.items };
}

impl Graph {
    /// The graph of these nodes, numbered by their positions, and these goals. `TooManyNodes` (43)
    /// if there are more than 4,096 nodes; otherwise `Cycle` (42) if a path of prerequisites leads
    /// from a node to itself; or out of memory. An error drops the nodes and goals.
    ///
    /// The caller must ensure that names are distinct, that goals and prerequisites are numbers of
    /// nodes, and that the goals reach each node. An empty graph is allowed. The time is linear in
    /// the number of nodes and prerequisites, and a long chain of nodes uses no machine stack.
    pub fn build(alloc: Global, nodes: Vec<Node>, goals: Vec<usize>) -> Result<Graph, GraphFault>
        requires { IsSound (record { nodes = nodes.items; goals = goals.items }) }
        ensures { Builds (record { nodes = nodes.items; goals = goals.items }) result }
    {
        if nodes.len() > MAX_NODES {
            return Err(GraphFault::TooManyNodes);
        }
        let rows = rows_of(alloc, &nodes)?;
        match walk(alloc, &rows, &goals)? {
            End::Order(order) => Ok(Graph {
                nodes,
                goals,
                order,
                rows,
            }),
            End::Cycle(path) => Err(GraphFault::Cycle(names_along(alloc, &nodes, &path)?)),
        }
    }

    /// The nodes; the position of each is its number.
    pub fn nodes(&self) -> &[Node]
        ensures value { result.now ≡ self.now.nodes }
        ensures graph { IsGraph self.now }
    {
        self.nodes.as_slice()
    }

    /// The numbers of the goals, in order.
    pub fn goals(&self) -> &[usize]
        ensures value { result.now ≡ self.now.goals }
        ensures graph { IsGraph self.now }
    {
        self.goals.as_slice()
    }

    /// The numbers of a node's direct prerequisites, group by group. Empty if there is no such
    /// node.
    pub fn prerequisites(&self, number: usize) -> &[usize]
        ensures { result.now ≡ prerequisites self.now number }
    {
        match self.rows.get(number) {
            Some(row) => row.as_slice(),
            None => &[],
        }
    }

    /// The serial order, without a copy.
    pub(crate) fn order(&self) -> &[usize]
        ensures value { result.now ≡ serial_order self.now }
        ensures graph { IsGraph self.now }
    {
        self.order.as_slice()
    }

    /// The numbers of all nodes in serial order, the order in which a make with one job makes them:
    /// depth first, left to right, each node once and after its prerequisites. The only error is
    /// out of memory.
    ///
    /// The prerequisites of a target are made before it, in the order in which they appear (IEEE
    /// Std 1003.1-2024, XCU make, "Target Rules"). `laws` has the properties of this order.
    pub fn serial(&self) -> Result<Vec<usize>, AllocError>
        ensures { IfOk result (λ order. order.items ≡ serial_order self.now) }
    {
        self.order.clone()
    }
}

/// The names of the nodes along a path.
fn names_along(alloc: Global, nodes: &[Node], path: &[usize]) -> Result<Names, AllocError>
    requires { All (λ n. n < length nodes.now) path.now }
    ensures { IfOk result (λ names. names ≡
        map (λ n. (slice_index_or nodes.now n no_node).name) path.now) }
{
    let mut names = Vec::with_capacity(alloc, path.len())?;
    for n in path {
        names.push(nodes[*n].name.clone()?)?;
    }
    Ok(Names::new(names))
}
