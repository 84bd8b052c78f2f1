//! What can be done without one node.
//!
//! A node can be done without another one exactly if no path of prerequisites leads from it to that
//! one. One pass over the serial order finds these nodes, and a pass backwards finds what a make
//! wants once they are done.

ghost use Rattle.std.specs.Prelude.{◌≡◌, true, ◌↔◌};
ghost use Rattle.mk_graph.specs.Schedules.{Before};
ghost use Rattle.mk_graph.specs.Without.{AreFree};

use crate::graph::Graph;
use crate::node_set::NodeSet;
use crate::wanted::wanted_with;
use std::marker::Model;

/// A make of all goals in which one node is never done. It tells for this node which others it runs
/// before. Contracts see the graph and the node.
#[derive(Drop)]
pub struct Without<'a> {
    graph: &'a Graph,
    other: usize,
    free: NodeSet,
    wanted: NodeSet,
}

impl<'a> Model for Without<'a> {
    ghost use Rattle.mk_graph.specs.Without as value;
    ghost use Rattle.mk_graph.specs.Without.{AreFree, AreWantedWith};

    ghost Value = { value.Lacking };

    ghost view = { λ w. record { graph = w.graph.now; other = w.other } };

    ghost invariant = { λ w. AreFree w.graph.now w.other w.free ×
        AreWantedWith w.graph.now w.free w.wanted };
}

/// The nodes that can be done without `o`.
pub fn free_of(graph: &Graph, o: usize) -> NodeSet
    ensures { AreFree graph.now o result }
{
    let nodes = graph.nodes();
    let mut free = NodeSet::new();
    for n in graph.order() {
        if *n == o {
            continue;
        }
        if free.has_groups(nodes[*n].groups.as_slice()) {
            free.insert(*n);
        }
    }
    free
}

impl<'a> Without<'a> {
    /// The make without this node. The time is linear in the number of nodes and prerequisites. It
    /// can't fail, and allocates nothing beyond its own 1,024 bytes.
    pub fn new(graph: &'a Graph, other: usize) -> Without<'a>
        ensures { result ≡ record { graph = graph.now; other = other } }
    {
        let free = free_of(graph, other);
        let wanted = wanted_with(graph, graph.goals(), &free);
        Without {
            graph,
            other,
            free,
            wanted,
        }
    }

    /// The node that is never done.
    pub fn other(&self) -> usize
        ensures { result ≡ self.now.other }
    {
        self.other
    }

    /// Whether the node runs before `t`: it is done whenever the recipe of `t` may begin, in every
    /// make of any part of the goals with any number of jobs. True for each `t` that has no recipe
    /// or isn't a node. The time is linear in the number of prerequisites of `t`.
    pub fn is_before(&self, t: usize) -> bool
        ensures { (result ≡ true) ↔ Before self.now.graph self.now.other t }
    {
        let Some(node) = self.graph.nodes().get(t) else {
            return true;
        };
        if !node.recipe {
            return true;
        }
        if !self.wanted.has(t) {
            return true;
        }
        !self.free.has_groups(node.groups.as_slice())
    }
}
