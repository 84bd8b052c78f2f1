//! The first cycle in a graph with further prerequisites.

ghost use Rattle.std.specs.Prelude.{◌≡◌, ℕ, ◌<◌, [], ◌∷◌, ◌++◌, length, IfOk};
ghost use Rattle.mk_graph.specs.Membership.{Has};
ghost use Rattle.mk_graph.specs.Graph.{node, prerequisites};
ghost use Rattle.mk_graph.specs.Progress.{row};
ghost use Rattle.mk_build_needs.specs.NeedsGraph.{with_prerequisites, IsFirstCycle};

use mk_graph::{Graph, GraphFault, Groups, Node};
use mk_lines::Names;
use std::alloc::{AllocError, Global};

/// The names along the first cycle that a depth-first, left-to-right walk from the goals finds if
/// each node has the numbers in its row as further prerequisites; the first name is repeated at the
/// end. `None` if there is no cycle. A node without a row has no further prerequisites. The only
/// error is out of memory.
///
/// The caller must ensure that each number in a row is that of a node. The time is linear in the
/// number of nodes and of prerequisites, further ones included.
pub fn first_cycle(
    alloc: Global,
    graph: &Graph,
    more: &[Vec<usize>],
) -> Result<Option<Names>, AllocError>
    requires { (n p : ℕ) → Has (row more.now n) p → p < length graph.now.nodes }
    ensures { IfOk result (λ found. IsFirstCycle (with_prerequisites graph.now
        (λ n. prerequisites graph.now n ++ row more.now n)) found) }
{
    let nodes = nodes_with(alloc, graph, more)?;
    let goals = Vec::from_slice(alloc, graph.goals())?;
    match Graph::build(alloc, nodes, goals) {
        Ok(_graph) => Ok(None),
        Err(GraphFault::Cycle(names)) => Ok(Some(names)),
        Err(GraphFault::TooManyNodes) => unreachable!(),
        Err(GraphFault::Memory) => Err(AllocError),
    }
}

/// The nodes of the graph, each with its prerequisites and those in its row in one group.
fn nodes_with(alloc: Global, graph: &Graph, more: &[Vec<usize>]) -> Result<Vec<Node>, AllocError>
    ensures { IfOk result (λ nodes. nodes.items ≡ (with_prerequisites graph.now
        (λ n. prerequisites graph.now n ++ row more.now n)).nodes) }
{
    let mut nodes = Vec::with_capacity(alloc, graph.nodes().len())?;
    for number in 0..graph.nodes().len() {
        nodes.push(node_with(alloc, graph, more, number)?)?;
    }
    Ok(nodes)
}

/// A node of the graph with its prerequisites and those in its row in one group.
fn node_with(
    alloc: Global,
    graph: &Graph,
    more: &[Vec<usize>],
    number: usize,
) -> Result<Node, AllocError>
    requires { number < length graph.now.nodes }
    ensures { IfOk result (λ one. one ≡ record (node graph.now number) {
      groups = (prerequisites graph.now number ++ row more.now number) ∷ [];
    }) }
{
    let mut group = Vec::from_slice(alloc, graph.prerequisites(number))?;
    if let Some(row) = more.get(number) {
        group.extend_from_slice(row)?;
    }
    let node = &graph.nodes()[number];
    Ok(Node {
        name: node.name.clone()?,
        groups: Groups::new(vec![in alloc; group]?),
        recipe: node.recipe,
        phony: node.phony,
    })
}
