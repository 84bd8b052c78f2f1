//! The text of plans.

use crate::graph_fixtures::graph_of;
use mk_world::Step;
use mk_world_plan::plan_text;
use std::alloc::{AllocError, Global};
use std::test::Fail;

/// The names in a text, separated by blanks.
fn names_of(alloc: Global, words: &str) -> Result<Vec<&str>, AllocError> {
    let mut names = Vec::new(alloc);
    for word in words.split_whitespace() {
        names.push(word)?;
    }
    Ok(names)
}

/// The step that begins a make of these goals.
fn make(alloc: Global, jobs: usize, goals: &str) -> Result<Step<'_>, AllocError> {
    let goals = names_of(alloc, goals)?;
    Ok(Step::Make { jobs, goals })
}

/// Appends the steps of a whole run of `p`.
fn push_run(steps: &mut Vec<Step<'_>>) -> Result<(), AllocError> {
    let node = "p";
    steps.push(Step::Begin { node })?;
    steps.push(Step::Look { node, file: "s" })?;
    steps.push(Step::Put {
        node,
        file: "p",
        content: 18_446_744_073_709_551_615,
    })?;
    steps.push(Step::End { node })?;
    Ok(())
}

/// Appends the pass of each of these nodes.
fn push_passes<'a>(steps: &mut Vec<Step<'a>>, nodes: &'a str) -> Result<(), AllocError> {
    for node in nodes.split_whitespace() {
        steps.push(Step::Pass { node })?;
    }
    Ok(())
}

/// Two makes with an edit between them.
fn history(alloc: Global) -> Result<Vec<Step<'static>>, AllocError> {
    let mut steps = Vec::new(alloc);
    steps.push(make(alloc, 1, "all")?)?;
    push_passes(&mut steps, "s")?;
    push_run(&mut steps)?;
    push_passes(&mut steps, "q all")?;
    steps.push(Step::EndMake)?;
    steps.push(Step::Edit {
        file: "s",
        content: 0,
    })?;
    steps.push(make(alloc, 4096, "p q")?)?;
    steps.push(Step::Stop)?;
    Ok(steps)
}

#[test]
fn steps_are_written_as_lines(rt: HostRuntime) -> Result<(), Fail> {
    let alloc = rt.alloc();
    let graph = graph_of(&rt, alloc, "all:12 p!:3 q!:3 s")?;
    let text = plan_text(alloc, &graph, &history(alloc)?)?;
    assert_eq!(rt;
        text.as_str(),
        concat!(
            "make 1\nbegin p\nlook p s\nput p p 18446744073709551615\ndone p\npass q\nend\n",
            "edit s 0\nmake 4096 p q\nstop\n",
        )
    );
    Ok(())
}
