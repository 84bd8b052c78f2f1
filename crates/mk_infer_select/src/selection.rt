//! The graph of the names that goals reach.

ghost use Rattle.std.specs.Prelude.{◌≡◌, find, map, IfOk};
ghost use Rattle.std.specs.Option.{option_map};
ghost use Rattle.mk_infer.specs.Selection.{Selects};
ghost use Rattle.mk_infer_select.specs.Walked.{IsWalked, lacks, node_with};
ghost use Rattle.mk_infer.specs.Targets.{have_text};

use crate::goals::Goals;
use crate::groups::{groups_with, numbers};
use crate::needed::{no_rule, refused};
use crate::walk::{VisitedName, Walked, walk_from};
use mk_graph::{Graph, GraphFault, MAX_NODES, Node};
use mk_infer::{Choices, InferFault};
use mk_infer_laws::laws::handed_graph_is_sound;
use mk_lines::{BorrowedNames, Name};
use mk_read::Command;
use std::alloc::{AllocError, Global};

/// Whether there are commands, and at least one of them has some text.
fn have_text(commands: Option<&[Command]>) -> bool
    ensures { result ≡ have_text (option_map (λ commands. commands.now) commands.entry) }
{
    match commands {
        Some(commands) => !commands.is_empty(),
        None => false,
    }
}

/// Makes the node of a name that was visited.
fn node_of(
    alloc: Global,
    choices: &Choices<'_>,
    names: &BorrowedNames<'_>,
    met: &VisitedName<'_>,
) -> Result<Node, AllocError>
    ensures { IfOk result (λ node. node ≡ node_with choices.now.makefile names.now met.now) }
{
    let (table, maker) = (choices.table(), &met.maker);
    Ok(Node {
        name: Name::new(alloc, met.name)?,
        groups: groups_with(
            alloc,
            table.not_parallel(),
            names,
            maker.choice,
            &maker.rules,
        )?,
        recipe: have_text(maker.commands),
        phony: table.is_phony(met.name),
    })
}

/// Makes the nodes of the names that were visited.
fn nodes_of(
    alloc: Global,
    choices: &Choices<'_>,
    names: &BorrowedNames<'_>,
    met: &[VisitedName<'_>],
) -> Result<Vec<Node>, AllocError>
    ensures { IfOk result (λ nodes. nodes.items ≡
        map (node_with choices.now.makefile names.now) met.now) }
{
    let mut nodes = Vec::with_capacity(alloc, met.len())?;
    for one in met {
        nodes.push(node_of(alloc, choices, names, one)?)?;
    }
    Ok(nodes)
}

/// Whether nothing makes a name: it has no commands, is no target, has no inference rule, isn't
/// phony and isn't given.
fn is_lacking(choices: &Choices<'_>, met: &VisitedName<'_>) -> bool
    ensures { result ≡ lacks choices.now.makefile choices.now.exists met.now }
{
    let (table, exists) = (choices.table(), choices.exists());
    !(met.maker.commands.is_some()
        || exists.any_leaf
        || table.target(met.name).is_some()
        || met.maker.choice.is_some()
        || table.is_phony(met.name)
        || exists.is_given(met.name))
}

/// Returns the first name that nothing makes.
fn first_lacking<'m>(choices: &Choices<'_>, met: &[VisitedName<'m>]) -> Option<&'m str>
    ensures { option_map (λ name. name.now) result ≡ option_map (λ found. found.name)
        (find (lacks choices.now.makefile choices.now.exists) met.now) }
{
    for one in met {
        if is_lacking(choices, one) {
            return Some(one.name);
        }
    }
    None
}

/// Makes the graph of a walk from the goals, or returns the first fault.
fn of_walk<'m>(
    alloc: Global,
    choices: &'m Choices<'m>,
    goals: &[&'m str],
    walked: &Walked<'m>,
) -> Result<Graph, InferFault>
    requires { IsWalked choices.now.makefile choices.now.exists
        (map (λ goal. goal.now) goals.now) walked.now }
    ensures { Selects choices.now.makefile choices.now.exists
        (map (λ goal. goal.now) goals.now) result }
{
    handed_graph_is_sound();
    if let Some(name) = first_lacking(choices, &walked.met) {
        return Err(no_rule(alloc, choices.table(), name)?);
    }
    if walked.names.as_slice().len() > MAX_NODES {
        return Err(InferFault::Graph(GraphFault::TooManyNodes, None));
    }
    let nodes = nodes_of(alloc, choices, &walked.names, &walked.met)?;
    let goals = numbers(alloc, &walked.names, goals)?;
    match Graph::build(alloc, nodes, goals) {
        Ok(graph) => Ok(graph),
        Err(fault) => Err(refused(alloc, choices.table(), fault)),
    }
}

/// Returns the graph of the names that the goals reach, with the inference rules that are chosen,
/// or the first fault. On an error nothing is returned.
///
/// A depth-first walk from the goals, from left to right, visits the names. It fails with `NoRule`
/// (41) for the first name that is no target, has no inference rule, isn't phony and isn't given,
/// among the first 4,096 names, and then with `TooManyNodes` (43) if there are more names. Last
/// comes `Cycle` (42) if prerequisites form a cycle (IEEE Std 1003.1-2024, XCU make, "Target Rules"
/// and "Inference Rules"). `Memory` may come at any time. Each name is looked up once.
pub fn select<'m>(
    alloc: Global,
    choices: &'m Choices<'m>,
    goals: &'m Goals,
) -> Result<Graph, InferFault>
    ensures { Selects choices.now.makefile choices.now.exists goals.now result }
{
    let goals = goals.texts(alloc)?;
    let walked = walk_from(alloc, choices, &goals)?;
    of_walk(alloc, choices, &goals, &walked)
}
