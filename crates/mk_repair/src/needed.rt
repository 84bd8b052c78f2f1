//! The names that recipes need which aren't phony.

ghost use Rattle.std.specs.Prelude.{◌≡◌, ◌&&◌, not, fold, map, IfOk, OnOk};
ghost use Rattle.mk_lines.specs.Names.{HoldsNames, with_name};
ghost use Rattle.mk_subject.specs.Subject.{name_of};
ghost use Rattle.mk_repair.specs.FindingWords.{needed, needs_directly};

use crate::node_name;
use mk_graph::Node;
use mk_lines::BorrowedNames;
use mk_subject::Subject;
use std::alloc::{AllocError, Global};

/// Whether a node has a recipe and isn't phony.
fn makes_a_file(node: &Node) -> bool
    ensures { result ≡ (node.now.recipe && not node.now.phony) }
{
    node.recipe && !node.phony
}

/// Whether the writer has the name as a direct prerequisite. Allocates nothing.
pub fn needs_directly(subject: &Subject<'_>, writer: &str, name: &str) -> bool
    ensures { result ≡ needs_directly subject.now writer.now name.now }
{
    let number = subject.names().number_of(writer);
    for other in subject.graph().prerequisites(number) {
        if name == node_name::name_of(subject, *other) {
            return true;
        }
    }
    false
}

/// Adds the names of nodes. The only error is out of memory.
fn insert_names<'a>(
    set: &mut BorrowedNames<'a>,
    subject: &'a Subject<'_>,
    numbers: &[usize],
) -> Result<(), AllocError>
    ensures { OnOk result (set.new ≡
        fold with_name set.old (map (name_of subject.entry.now) numbers.now)) }
{
    for number in numbers {
        set.insert(node_name::name_of(subject, *number))?;
    }
    Ok(())
}

/// The names of all direct prerequisites of recipes that aren't phony. Takes time linear in the
/// graph. The only error is out of memory.
pub fn needed_names<'a>(
    alloc: Global,
    subject: &'a Subject<'_>,
) -> Result<BorrowedNames<'a>, AllocError>
    ensures { IfOk result (λ set. HoldsNames set (needed subject.entry.now)) }
{
    let graph = subject.graph();
    let mut set = BorrowedNames::new(alloc);
    for (number, node) in graph.nodes().iter().enumerate() {
        if !makes_a_file(node) {
            continue;
        }
        insert_names(&mut set, subject, graph.prerequisites(number))?;
    }
    Ok(set)
}
