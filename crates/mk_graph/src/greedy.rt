//! The happens-before relation, searched anew in the graph for each query.

ghost use Rattle.std.specs.Prelude.{◌≡◌};

use crate::graph::Graph;
use crate::order::Order;
use crate::without::Without;
use std::marker::Model;

/// The happens-before relation of a graph. Each query does everything that can be done without one
/// node, as a make of all goals would, and tests whether the other node can then start.
#[derive(Drop)]
pub struct Greedy<'a> {
    graph: &'a Graph,
}

impl<'a> Model for Greedy<'a> {
    ghost use Rattle.mk_graph.specs.Graph as value;

    ghost Value = { value.Graph };

    ghost view = { λ it. it.graph.now };
}

impl<'a> Greedy<'a> {
    /// The relation for this graph, in constant time.
    pub fn new(graph: &'a Graph) -> Greedy<'a>
        ensures { result ≡ graph.now }
    {
        Greedy { graph }
    }
}

impl<'a> Order for Greedy<'a> {
    ghost graph_of = { λ it. it };

    /// The time is linear in the number of nodes and prerequisites. It uses 1,024 bytes of stack
    /// and allocates nothing.
    fn before(&self, o: usize, t: usize) -> bool {
        Without::new(self.graph, o).is_before(t)
    }
}
