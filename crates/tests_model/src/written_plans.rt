//! Traces that are written as plans, read back and run.

use crate::graph_fixtures::graph_of;
use crate::plans::{TWO, see_plans};
use mk_graph::Graph;
use mk_world::Step;
use mk_world_plan::plan_text;
use std::alloc::{AllocError, Global};
use std::process::Abort;
use std::test::Fail;

/// The step that begins a make of `all`.
fn make(alloc: Global, jobs: usize) -> Result<Step<'static>, AllocError> {
    let mut goals = Vec::new(alloc);
    goals.push("all")?;
    Ok(Step::Make { jobs, goals })
}

/// Appends the rest of a run after its begin: it reads `s`, writes a content into its target, and
/// ends.
fn push_rest<'a>(steps: &mut Vec<Step<'a>>, node: &'a str, content: u64) -> Result<(), AllocError> {
    steps.push(Step::Look { node, file: "s" })?;
    steps.push(Step::Put {
        node,
        file: node,
        content,
    })?;
    steps.push(Step::End { node })?;
    Ok(())
}

/// Appends a make in which two recipes run at the same time.
fn push_both(alloc: Global, steps: &mut Vec<Step<'_>>) -> Result<(), AllocError> {
    steps.push(make(alloc, 2)?)?;
    steps.push(Step::Pass { node: "s" })?;
    steps.push(Step::Begin { node: "p" })?;
    steps.push(Step::Begin { node: "q" })?;
    push_rest(steps, "q", 9)?;
    push_rest(steps, "p", 18_446_744_073_709_551_615)?;
    steps.push(Step::Pass { node: "all" })?;
    steps.push(Step::EndMake)?;
    Ok(())
}

/// Appends a make in which the recipes run one after the other.
fn push_one_by_one(alloc: Global, steps: &mut Vec<Step<'_>>) -> Result<(), AllocError> {
    steps.push(make(alloc, 1)?)?;
    steps.push(Step::Pass { node: "s" })?;
    steps.push(Step::Begin { node: "q" })?;
    push_rest(steps, "q", 3)?;
    steps.push(Step::Begin { node: "p" })?;
    push_rest(steps, "p", 0)?;
    steps.push(Step::Pass { node: "all" })?;
    steps.push(Step::EndMake)?;
    Ok(())
}

/// Both makes with an edit between them, a make that is stopped, and a make that passes everything.
fn history(alloc: Global) -> Result<Vec<Step<'static>>, AllocError> {
    let mut steps = Vec::new(alloc);
    push_both(alloc, &mut steps)?;
    steps.push(Step::Edit {
        file: "s",
        content: 0,
    })?;
    push_one_by_one(alloc, &mut steps)?;
    steps.push(make(alloc, 1)?)?;
    steps.push(Step::Stop)?;
    steps.push(make(alloc, 1)?)?;
    steps.push(Step::Pass { node: "s" })?;
    steps.push(Step::Pass { node: "p" })?;
    Ok(steps)
}

/// The plan of the trace.
fn written(alloc: Global, graph: &Graph) -> Result<String, AllocError> {
    let steps = history(alloc)?;
    let text = plan_text(alloc, graph, &steps);
    drop(steps);
    text
}

/// What the run of the trace's plan prints, with a slash for each newline.
const PRINTED: &str = "p 18446744073709551615 3/q 9 2/s 1 1/p 0 6/q 3 5/s 0 4/plan ok/";

/// The row of a plan and what it prints, with a slash for each newline.
fn row_of(alloc: Global, plan: &str) -> Result<String, AllocError> {
    let mut row = String::new(alloc);
    for c in plan.chars() {
        row.push(if c == '\n' { '/' } else { c })?;
    }
    row.push_str(" => ")?;
    row.push_str(PRINTED)?;
    Ok(row)
}

/// Asserts what the trace's plan prints.
fn see_history(rt: &impl Abort, alloc: Global, graph: &Graph) -> Result<(), Fail> {
    let plan = written(alloc, graph)?;
    let row = row_of(alloc, plan.as_str())?;
    see_plans(rt, alloc, graph, TWO, row.as_str())
}

#[test]
fn a_history_is_written_and_run(rt: HostRuntime) -> Result<(), Fail> {
    let graph = graph_of(&rt, rt.alloc(), "all:12 p!:3 q!:3 s")?;
    let seen = see_history(&rt, rt.alloc(), &graph);
    drop(graph);
    seen
}
