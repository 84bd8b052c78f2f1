//! Runs nodes one after another.

ghost use Rattle.std.specs.Prelude.{◌≡◌, ◌<◌, ◌⊎◌, ℕ, length, true, false, MatchBool, OnOk};
ghost use Rattle.mk_graph.specs.Graph.{node};
ghost use Rattle.mk_graph.specs.Membership.{Has};
ghost use Rattle.mk_find_evidence.specs.Histories.{GoesOnMaking, MayMake};

use crate::history::History;
use mk_graph::{Graph, NodeSet};
use std::alloc::AllocError;

/// Whether the node has a recipe and isn't among `passed`.
fn is_to_run(graph: &Graph, number: usize, passed: &NodeSet) -> bool
    requires { number < length graph.now.nodes }
    ensures { MatchBool result
        (((node graph.now number).recipe ≡ true) × (¬ (Has passed.now number)))
        (((node graph.now number).recipe ≡ false) ⊎ Has passed.now number) }
{
    let nodes = graph.nodes();
    let node = &nodes[number];
    node.recipe && !passed.has(number)
}

/// Runs the recipes of these nodes as a whole, one after another, except those in `passed`; these
/// and the nodes without recipe are passed. The only error is out of memory.
pub fn make_but(
    graph: &Graph,
    history: &mut History<'_>,
    order: &[usize],
    passed: &NodeSet,
) -> Result<(), AllocError>
    requires graph { graph.now ≡ history.old.world.scene.graph }
    requires nodes { (n : ℕ) → Has order.now n → n < length graph.now.nodes }
    requires legal { MayMake history.old passed.now order.now }
    ensures { OnOk result (GoesOnMaking history.old history.new passed.now order.now) }
{
    for number in order {
        if is_to_run(graph, *number, passed) {
            history.run(*number)?;
        } else {
            history.pass(*number)?;
        }
    }
    Ok(())
}
