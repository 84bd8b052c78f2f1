//! Writing plans.

ghost use Rattle.std.specs.Prelude.{◌≡◌, ◌++◌, ℕ, List, map, IfOk, OnOk};
ghost use Rattle.std.specs.List.{flat_map};
ghost use Rattle.std.specs.String.{string_bytes};
ghost use Rattle.mk_lines.specs.Names.{has_name};
ghost use Rattle.mk_world.specs.NamedStep.{step_view};
ghost use Rattle.mk_world_plan.specs.PlanText.{are_all_named, break_line, goals_text, is_idle, make_line, names_text, pass_line, plan_text, step_text};

use crate::tables::{idle_names, set_of};
use mk_graph::Graph;
use mk_lines::BorrowedNames;
use mk_world::Step;
use std::alloc::{AllocError, Global};

/// Appends texts, one after another.
fn push_all(out: &mut String, texts: &[&str]) -> Result<(), AllocError>
    ensures { OnOk result (string_bytes out.new ≡
        string_bytes out.old ++ flat_map (λ text. text.now) texts.now) }
{
    for text in texts {
        out.push_str(text)?;
    }
    Ok(())
}

/// Whether each goal of the graph is among these names. The only error is out of memory.
fn are_all_named(alloc: Global, graph: &Graph, goals: &[&str]) -> Result<bool, AllocError>
    ensures { IfOk result (λ all. all ≡
        are_all_named graph.now (map (λ goal. goal.now) goals.now)) }
{
    let named = set_of(alloc, goals)?;
    let nodes = graph.nodes();
    for goal in graph.goals() {
        if !named.contains(nodes[*goal].name.as_str()) {
            return Ok(false);
        }
    }
    Ok(true)
}

/// Appends the names, each after a space.
fn push_names(line: &mut String, names: &[&str]) -> Result<(), AllocError>
    ensures { OnOk result (string_bytes line.new ≡
        string_bytes line.old ++ names_text (map (λ name. name.now) names.now)) }
{
    for name in names {
        line.push_str(" ")?;
        line.push_str(name)?;
    }
    Ok(())
}

/// The names of a make's goals, each after a space, or nothing if the make has all goals. The only
/// error is out of memory.
fn goals_text(alloc: Global, graph: &Graph, goals: &[&str]) -> Result<String, AllocError>
    ensures { IfOk result (λ text. string_bytes text ≡
        goals_text graph.now (map (λ goal. goal.now) goals.now)) }
{
    let mut text = String::new(alloc);
    if !are_all_named(alloc, graph, goals)? {
        push_names(&mut text, goals)?;
    }
    Ok(text)
}

/// Appends the line of a make.
fn push_make(
    alloc: Global,
    out: &mut String,
    graph: &Graph,
    jobs: usize,
    goals: &[&str],
) -> Result<(), AllocError>
    ensures { OnOk result (string_bytes out.new ≡
        string_bytes out.old ++ make_line graph.now jobs (map (λ goal. goal.now) goals.now)) }
{
    let goals = goals_text(alloc, graph, goals)?;
    writeln!(out, "make {jobs}{goals}")
}

/// Appends the line `pass T`, or nothing if the node is in `idle`.
fn push_pass(out: &mut String, idle: &BorrowedNames<'_>, node: &str) -> Result<(), AllocError>
    ensures { OnOk result (string_bytes out.new ≡
        string_bytes out.old ++ pass_line (has_name idle.now node.now) node.now) }
{
    if idle.contains(node) {
        return Ok(());
    }
    push_all(out, &["pass ", node, "\n"])
}

/// Appends the line `break T` or `break T removed`.
fn push_break(out: &mut String, node: &str, removed: bool) -> Result<(), AllocError>
    ensures { OnOk result (string_bytes out.new ≡
        string_bytes out.old ++ break_line node.now removed) }
{
    if removed {
        return push_all(out, &["break ", node, " removed\n"]);
    }
    push_all(out, &["break ", node, "\n"])
}

/// Appends the line of a step.
fn push_step(
    alloc: Global,
    out: &mut String,
    graph: &Graph,
    idle: &BorrowedNames<'_>,
    step: &Step<'_>,
) -> Result<(), AllocError>
    requires { (name : List ℕ) → has_name idle.now name ≡ is_idle graph.now name }
    ensures { OnOk result (string_bytes out.new ≡
        string_bytes out.old ++ step_text graph.now (step_view step.now)) }
{
    match step {
        Step::Edit { file, content } => writeln!(out, "edit {file} {content}"),
        Step::Make { jobs, goals } => push_make(alloc, out, graph, *jobs, goals.as_slice()),
        Step::Begin { node } => push_all(out, &["begin ", node, "\n"]),
        Step::Look { node, file } => push_all(out, &["look ", node, " ", file, "\n"]),
        Step::Put {
            node,
            file,
            content,
        } => writeln!(out, "put {node} {file} {content}"),
        Step::End { node } => push_all(out, &["done ", node, "\n"]),
        Step::Break { node, removed } => push_break(out, node, *removed),
        Step::Pass { node } => push_pass(out, idle, node),
        Step::Stop => writeln!(out, "stop"),
        Step::EndMake => writeln!(out, "end"),
    }
}

/// The text of a plan of these steps, one line for each, as `read_plan` reads it. The only error is
/// out of memory. The time is linear in the number of steps and nodes.
///
/// Contents are written out. The pass of a node without a recipe has no line, since the run of a
/// plan passes such nodes by itself. A make of all goals names none.
pub fn plan_text(alloc: Global, graph: &Graph, steps: &[Step<'_>]) -> Result<String, AllocError>
    ensures { IfOk result (λ text. string_bytes text ≡
        plan_text graph.now (map step_view steps.now)) }
{
    let idle = idle_names(alloc, graph)?;
    let mut text = String::new(alloc);
    for step in steps {
        push_step(alloc, &mut text, graph, &idle, step)?;
    }
    Ok(text)
}
