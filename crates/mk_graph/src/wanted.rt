//! What a make wants once some nodes are done.

ghost use Rattle.std.specs.Prelude.{ℕ, ◌<◌, ◌⊎◌, ◌↔◌, length, map};
ghost use Rattle.mk_graph.specs.Graph.{max_nodes};
ghost use Rattle.mk_graph.specs.Membership.{Has};
ghost use Rattle.mk_graph.specs.Schedules.{InOpenGroup, Wanted};
ghost use Rattle.mk_graph.specs.Without.{joined};

use crate::graph::Graph;
use crate::node_set::NodeSet;

/// The nodes that a make of these goals wants once the nodes `done` are done: the goals, and the
/// members of each group of a wanted node whose earlier groups are all done. It can't fail, uses
/// 512 bytes of stack, and allocates nothing.
///
/// What comes after a `.WAIT` isn't wanted until what comes before it is made (IEEE Std
/// 1003.1-2024, XCU make, "Target Rules"). One pass backwards over the serial order finds these
/// nodes.
pub fn wanted_with(graph: &Graph, goals: &[usize], done: &NodeSet) -> NodeSet
    requires { (n : ℕ) → Has goals.now n → n < length graph.now.nodes }
    ensures { (n : ℕ) → Has result n ↔ Wanted graph.now goals.now done.now n }
{
    let nodes = graph.nodes();
    let order = graph.order();
    let mut wanted = NodeSet::new();
    wanted.insert_all(goals);
    let mut place = order.len();
    while place > 0 {
        place -= 1;
        let n = order[place];
        if wanted.has(n) {
            want_open(&mut wanted, done, nodes[n].groups.as_slice());
        }
    }
    wanted
}

/// Adds the members of open groups.
fn want_open(wanted: &mut NodeSet, done: &NodeSet, groups: &[Vec<usize>])
    requires { (n : ℕ) → Has (joined (map (λ group. group.items) groups.now)) n → n < max_nodes }
    ensures { (n : ℕ) → Has wanted.new n ↔
        InOpenGroup done.now (map (λ group. group.items) groups.now) n ⊎ Has wanted.old n }
{
    for group in groups {
        wanted.insert_all(group);
        if !done.has_all(group) {
            return;
        }
    }
}
