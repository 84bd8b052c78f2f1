//! Places in the serial order, and the users of nodes.

ghost use Rattle.std.specs.Prelude.{◌≡◌, ◌<◌, ◌↔◌, ◌⊎◌, ℕ, [], length, map, replicate, IfOk, OnOk};
ghost use Rattle.mk_graph.specs.Membership.{Has, IsDistinct};
ghost use Rattle.mk_graph.specs.Progress.{row};
ghost use Rattle.mk_graph_ready.specs.Layout.{ArePlaces, AreUsers};

use mk_graph::Graph;
use std::alloc::{AllocError, Global};

/// The number `many` of empty rows. The only error is out of memory.
fn empty_rows(alloc: Global, many: usize) -> Result<Vec<Vec<usize>>, AllocError>
    ensures { IfOk result (λ rows. map (λ row. row.items) rows.items ≡ replicate many []) }
{
    let mut rows = Vec::with_capacity(alloc, many)?;
    for _ in 0..many {
        rows.push(Vec::new(alloc))?;
    }
    Ok(rows)
}

/// Adds a node to the rows of these numbers. The only error is out of memory.
fn add_user(rows: &mut Vec<Vec<usize>>, numbers: &[usize], node: usize) -> Result<(), AllocError>
    requires { (n : ℕ) → Has numbers.now n → n < length rows.old.items }
    ensures many { OnOk result (length rows.new.items ≡ length rows.old.items) }
    ensures added { OnOk result ((n p : ℕ) → Has (row rows.new.items n) p ↔
        (Has (row rows.old.items n) p ⊎ ((p ≡ node) × Has numbers.now n))) }
{
    for number in numbers {
        rows[*number].push(node)?;
    }
    Ok(())
}

/// For each node, the nodes with it as a direct prerequisite. The only error is out of memory.
pub fn users_of(alloc: Global, graph: &Graph) -> Result<Vec<Vec<usize>>, AllocError>
    ensures { IfOk result (λ rows. AreUsers graph.now rows.items) }
{
    let many = graph.nodes().len();
    let mut rows = empty_rows(alloc, many)?;
    for node in 0..many {
        add_user(&mut rows, graph.prerequisites(node), node)?;
    }
    Ok(rows)
}

/// For each node, its position in an order. The only error is out of memory.
pub fn places_of(alloc: Global, order: &[usize], many: usize) -> Result<Vec<usize>, AllocError>
    requires distinct { IsDistinct order.now }
    requires low { (n : ℕ) → Has order.now n → n < many }
    ensures many { IfOk result (λ places. length places.items ≡ many) }
    ensures places { IfOk result (λ places. ArePlaces order.now places.items) }
{
    let mut places = vec![in alloc; 0; many]?;
    for place in 0..order.len() {
        places[order[place]] = place;
    }
    Ok(places)
}
