//! The printed text of a graph.

ghost use Rattle.std.specs.Prelude.{◌≡◌, ◌∷◌, ◌++◌, [], map, MatchOption, OnOk, IfOk};
ghost use Rattle.mk_graph.specs.Graph.{node, no_node};
ghost use Rattle.mk_core_text.specs.GraphText.{commands_text, goals_text, graph_text, groups_text, names_text, node_text, nodes_text, shown_lines, shown_node, waits_text};
ghost use Rattle.mk_core_text.specs.Appending.{Extends};
ghost use Rattle.mk_infer.specs.Steps.{Gives};

use mk_graph::{Graph, Node};
use mk_infer::{Choices, InferFault, commands};
use std::alloc::{AllocError, Global};

/// The node with this number.
fn node_at(graph: &Graph, number: usize) -> Option<&Node>
    ensures { MatchOption result (node graph.now number ≡ no_node) (λ found. found.now ≡
        node graph.now number) }
{
    graph.nodes().get(number)
}

/// The name of the node with this number; empty where there is no such node.
fn name_at(graph: &Graph, number: usize) -> &str
    ensures { result.now ≡ (node graph.now number).name }
{
    let Some(node) = node_at(graph, number) else {
        return "";
    };
    node.name.as_str()
}

/// Appends each name after a space.
fn push_names(out: &mut Vec<u8>, graph: &Graph, numbers: &[usize]) -> Result<(), AllocError>
    ensures { OnOk result (out.new.items ≡ out.old.items ++ names_text graph.now numbers.now) }
{
    for number in numbers {
        out.push(b' ')?;
        out.extend_from_slice(name_at(graph, *number).as_bytes())?;
    }
    Ok(())
}

/// Appends `.WAIT` and the names of each group.
fn push_waits(out: &mut Vec<u8>, graph: &Graph, groups: &[Vec<usize>]) -> Result<(), AllocError>
    ensures { OnOk result (out.new.items ≡
        out.old.items ++ waits_text graph.now (map (λ group. group.items) groups.now)) }
{
    for group in groups {
        out.extend_from_slice(b" .WAIT")?;
        push_names(out, graph, group)?;
    }
    Ok(())
}

/// Appends the names of the groups, with `.WAIT` between groups.
fn push_groups(out: &mut Vec<u8>, graph: &Graph, groups: &[Vec<usize>]) -> Result<(), AllocError>
    ensures { OnOk result (out.new.items ≡
        out.old.items ++ groups_text graph.now (map (λ group. group.items) groups.now)) }
{
    let Some((first, others)) = groups.split_first() else {
        return Ok(());
    };
    push_names(out, graph, first)?;
    push_waits(out, graph, others)
}

/// Appends the line of a node.
fn push_node(out: &mut Vec<u8>, graph: &Graph, number: usize) -> Result<(), AllocError>
    ensures { OnOk result (out.new.items ≡ out.old.items ++ node_text graph.now number) }
{
    let Some(node) = node_at(graph, number) else {
        out.extend_from_slice(b":\n")?;
        return Ok(());
    };
    out.extend_from_slice(node.name.as_str().as_bytes())?;
    out.extend_from_slice(if node.recipe {
        b" recipe".as_slice()
    } else {
        b"".as_slice()
    })?;
    out.extend_from_slice(if node.phony {
        b" phony".as_slice()
    } else {
        b"".as_slice()
    })?;
    out.push(b':')?;
    push_groups(out, graph, node.groups.as_slice())?;
    out.push(b'\n')?;
    Ok(())
}

/// Appends each command after a tab, on a line of its own.
fn push_commands(out: &mut Vec<u8>, lines: &[Vec<u8>]) -> Result<(), AllocError>
    ensures { OnOk result (out.new.items ≡
        out.old.items ++ commands_text (map (λ line. line.items) lines.now)) }
{
    for line in lines {
        out.push(b'\t')?;
        out.extend_from_slice(line)?;
        out.push(b'\n')?;
    }
    Ok(())
}

/// The expanded commands of a name, or none unless they are asked for.
fn shown_lines<'m>(
    alloc: Global,
    choices: &'m Choices<'m>,
    name: &str,
    asked: bool,
) -> Result<Vec<Vec<u8>>, InferFault>
    ensures { Gives (λ lines.
        map (λ line.
        line.items) lines.items) result (shown_lines
        asked choices.now.makefile choices.now.exists name.now) }
{
    if asked {
        Ok(commands(alloc, choices, name)?.lines)
    } else {
        Ok(Vec::new(alloc))
    }
}

/// A graph, and what is shown of it.
#[derive(Drop)]
struct ShownGraph<'m> {
    /// The graph.
    graph: &'m Graph,
    /// What its commands are expanded by.
    choices: &'m Choices<'m>,
    /// Whether the commands are shown.
    asked: bool,
}

/// Appends the line of a node, and its commands where they are asked for.
fn push_shown(out: &mut Vec<u8>, shown: &ShownGraph<'_>, number: usize) -> Result<(), InferFault>
    ensures { Extends out.old.items out.new.items result (shown_node (shown_lines shown.now.asked
        shown.now.choices.now.makefile shown.now.choices.now.exists) shown.now.graph.now number) }
{
    let alloc = *out.allocator();
    let name = name_at(shown.graph, number);
    let lines = shown_lines(alloc, shown.choices, name, shown.asked)?;
    push_node(out, shown.graph, number)?;
    push_commands(out, &lines)?;
    Ok(())
}

/// Appends the lines of the nodes, each with its commands where they are asked for.
fn push_nodes(
    out: &mut Vec<u8>,
    shown: &ShownGraph<'_>,
    numbers: &[usize],
) -> Result<(), InferFault>
    ensures { Extends out.old.items out.new.items result (nodes_text (shown_lines shown.now.asked
        shown.now.choices.now.makefile shown.now.choices.now.exists) shown.now.graph.now
        numbers.now) }
{
    for number in numbers {
        push_shown(out, shown, *number)?;
    }
    Ok(())
}

/// Appends the line of the goals.
fn push_goals(out: &mut Vec<u8>, graph: &Graph) -> Result<(), AllocError>
    ensures { OnOk result (out.new.items ≡ out.old.items ++ goals_text graph.now) }
{
    out.extend_from_slice(b"goals")?;
    push_names(out, graph, graph.goals())?;
    out.push(b'\n')?;
    Ok(())
}

/// The text of a graph: the goals on a line, then a line for each node in serial order, followed by
/// its commands where `asked` is set. Fails with the first fault of expanding a command, or with
/// `Memory`, out of memory.
pub fn text_of<'m>(
    alloc: Global,
    choices: &'m Choices<'m>,
    graph: &Graph,
    asked: bool,
) -> Result<Vec<u8>, InferFault>
    ensures { Gives (λ text.
        text.items) result (graph_text (shown_lines asked
        choices.now.makefile choices.now.exists) graph.now) }
{
    let mut out = Vec::new(alloc);
    push_goals(&mut out, graph)?;
    let order = graph.serial()?;
    let shown = ShownGraph {
        graph,
        choices,
        asked,
    };
    push_nodes(&mut out, &shown, &order)?;
    Ok(out)
}
