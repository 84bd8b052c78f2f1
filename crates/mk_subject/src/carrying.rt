//! The recipes that each node carries.

ghost use Rattle.std.specs.Prelude.{◌≡◌, ℕ, [], length, slice_index_or, IfOk};
ghost use Rattle.mk_subject.specs.Carried.{carried};

use crate::subject::Subject;
use mk_graph::Groups;
use std::alloc::{AllocError, Global};

/// The writers of a node's direct prerequisites, in the order of these.
fn carried_by(alloc: Global, subject: &Subject<'_>, number: usize) -> Result<Vec<usize>, AllocError>
    ensures { IfOk result (λ numbers. numbers.items ≡ carried subject.now number) }
{
    let prerequisites = subject.graph().prerequisites(number);
    let mut carried = Vec::with_capacity(alloc, prerequisites.len())?;
    for prerequisite in prerequisites {
        carried.extend_from_slice(subject.writers_of_node(*prerequisite))?;
    }
    Ok(carried)
}

/// For each node, at its number, the recipes that it carries: the writers of its direct
/// prerequisites, in the order of these, which is the order in which the search for ways follows
/// them.
///
/// Takes time linear in the prerequisites of all nodes if each file has one writer. The only error
/// is out of memory.
pub fn carried_lists(alloc: Global, subject: &Subject<'_>) -> Result<Groups, AllocError>
    ensures many { IfOk result (λ lists. length lists ≡ length subject.now.graph.nodes) }
    ensures lists { IfOk result (λ lists. (t : ℕ) →
        slice_index_or lists t [] ≡ carried subject.now t) }
{
    let count = subject.graph().nodes().len();
    let mut lists = Vec::with_capacity(alloc, count)?;
    for number in 0..count {
        lists.push(carried_by(alloc, subject, number)?)?;
    }
    Ok(Groups::new(lists))
}
