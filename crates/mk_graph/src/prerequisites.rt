//! The prerequisites of each node, with all groups in one row.

ghost use Rattle.std.specs.Prelude.{◌≡◌, map, IfOk};
ghost use Rattle.std.specs.List.{flat_map};
ghost use Rattle.mk_graph.specs.Progress.{ArePrerequisiteRows};

use crate::node::Node;
use std::alloc::{AllocError, Global};

/// A row for each node: its prerequisites, in the order of its groups. The only error is out of
/// memory.
pub fn rows_of(alloc: Global, nodes: &[Node]) -> Result<Vec<Vec<usize>>, AllocError>
    ensures { IfOk result (λ rows. ArePrerequisiteRows rows.items nodes.now) }
{
    let mut rows = Vec::with_capacity(alloc, nodes.len())?;
    for node in nodes {
        rows.push(joined(alloc, node.groups.as_slice())?)?;
    }
    Ok(rows)
}

/// The members of all groups, group by group.
fn joined(alloc: Global, groups: &[Vec<usize>]) -> Result<Vec<usize>, AllocError>
    ensures { IfOk result (λ row. row.items ≡
        flat_map (λ group. group) (map (λ group. group.items) groups.now)) }
{
    let mut row = Vec::new(alloc);
    for group in groups {
        row.extend_from_slice(group)?;
    }
    Ok(row)
}
