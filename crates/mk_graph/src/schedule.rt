//! Schedules that avoid a node.

ghost use Rattle.std.specs.Prelude.{◌≡◌, ◌<◌, filter, length, map, reverse, IfOk, MatchOption};
ghost use Rattle.mk_graph.specs.Membership.{has};
ghost use Rattle.mk_graph.specs.Progress.{row, AreRows};
ghost use Rattle.mk_graph.specs.Schedules.{Before, IsScheduleWithout};
ghost use Rattle.mk_graph.specs.Without.{AreOpened, opened, until};

use crate::graph::Graph;
use crate::greedy::Greedy;
use crate::node_set::NodeSet;
use crate::order::Order;
use crate::walk::{End, walk};
use crate::without::free_of;
use std::alloc::{AllocError, Global};

/// A schedule for all goals without `o`, after which the recipe of `t` can start, or `None` if `o`
/// runs before `t`. The only error is out of memory.
///
/// A make that follows the schedule is legal over any build inputs (`schedules_run` of mk_build).
/// The time is linear in the number of nodes and prerequisites.
pub fn schedule_without(
    alloc: Global,
    graph: &Graph,
    o: usize,
    t: usize,
) -> Result<Option<Vec<usize>>, AllocError>
    ensures { IfOk result (λ found. MatchOption found (Before graph.now o t)
        (λ turns. IsScheduleWithout graph.now o t (reverse turns.items))) }
{
    if Greedy::new(graph).before(o, t) {
        return Ok(None);
    }
    let free = free_of(graph, o);
    let rows = open_rows(alloc, graph, &free)?;
    match walk(alloc, &rows, graph.goals())? {
        End::Order(order) => Ok(Some(free_until(alloc, &order, &free, t)?)),
        End::Cycle(_) => Ok(None),
    }
}

/// A row for each node: the members of its open groups.
fn open_rows(alloc: Global, graph: &Graph, free: &NodeSet) -> Result<Vec<Vec<usize>>, AllocError>
    ensures rows { IfOk result (λ rows. AreOpened graph.now free.now (row rows.items)) }
    ensures numbers { IfOk result (λ rows. AreRows rows.items) }
    ensures many { IfOk result (λ rows. length rows.items ≡ length graph.now.nodes) }
{
    let nodes = graph.nodes();
    let mut rows = Vec::with_capacity(alloc, nodes.len())?;
    for node in nodes {
        rows.push(open_row(alloc, node.groups.as_slice(), free)?)?;
    }
    Ok(rows)
}

/// The members of the open groups: of the first groups up to and including the first that isn't all
/// free.
fn open_row(alloc: Global, groups: &[Vec<usize>], free: &NodeSet) -> Result<Vec<usize>, AllocError>
    ensures { IfOk result (λ row. row.items ≡
        opened free.now (map (λ group. group.items) groups.now)) }
{
    let mut row = Vec::new(alloc);
    for group in groups {
        row.extend_from_slice(group)?;
        if !free.has_all(group) {
            break;
        }
    }
    Ok(row)
}

/// The free nodes that come before `t` in the order.
fn free_until(
    alloc: Global,
    order: &[usize],
    free: &NodeSet,
    t: usize,
) -> Result<Vec<usize>, AllocError>
    ensures { IfOk result (λ turns. turns.items ≡ until t (filter (has free.now) order.now)) }
{
    let mut turns = Vec::new(alloc);
    for n in order {
        if !free.has(*n) {
            continue;
        }
        if *n == t {
            break;
        }
        turns.push(*n)?;
    }
    Ok(turns)
}
