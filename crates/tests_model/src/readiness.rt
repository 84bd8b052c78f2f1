//! `Readiness`: which nodes a make wants, which can start, and which is passed next.

ghost use Rattle.std.specs.Prelude.{◌≡◌, OnOk};

use crate::graph_fixtures::{are_below, graph_of, same, see_that};
use mk_graph::Graph;
use mk_graph_ready::Readiness;
use std::alloc::{AllocError, Global};
use std::process::Abort;
use std::test::Fail;

/// `all: first second`, `first: gate .WAIT hidden`, `second: early .WAIT late`, `hidden: late`;
/// `all`, `first` and `second` have no recipe.
const GATED: &str = "all:14 first:2|3 gate! hidden!:6 second:5|6 early! late!";

/// Begins a make of these goals.
fn begin(
    rt: &impl Abort,
    alloc: Global,
    graph: &Graph,
    readiness: &mut Readiness,
    goals: &[usize],
) -> Result<(), AllocError>
    requires { readiness.old.graph ≡ graph.now }
    ensures { OnOk result (readiness.new.graph ≡ graph.now) }
{
    assert!(rt; are_below(goals, graph.nodes().len()));
    readiness.start(alloc, goals)
}

/// Marks a node as done.
fn done(rt: &impl Abort, graph: &Graph, readiness: &mut Readiness, number: usize)
    requires { readiness.old.graph ≡ graph.now }
    ensures { readiness.new.graph ≡ graph.now }
{
    assert!(rt; number < graph.nodes().len());
    readiness.mark_done(number);
}

/// A letter for each of seven nodes: `t` if it can start, else `w` if it is wanted, else `-`.
fn shown(alloc: Global, readiness: &Readiness) -> Result<String, AllocError> {
    let mut text = String::new(alloc);
    for number in 0..7 {
        let turns = readiness.can_start(number);
        let wants = readiness.is_wanted(number);
        text.push(if turns {
            't'
        } else if wants {
            'w'
        } else {
            '-'
        })?;
    }
    Ok(text)
}

/// A node that is done, the letters after that, and the next node to pass.
const STEPS: &[(usize, &str, Option<usize>)] = &[
    (2, "wwwwwtt", None),
    (6, "wwwtwtw", None),
    (3, "wtwwwtw", Some(1)),
    (5, "wtwwtww", Some(1)),
    (1, "wwwwtww", Some(4)),
    (4, "twwwwww", Some(0)),
    (0, "wwwwwww", None),
];

/// Asserts the letters of the nodes.
fn see_shown(
    rt: &impl Abort,
    alloc: Global,
    readiness: &Readiness,
    want: &str,
) -> Result<(), AllocError> {
    let got = shown(alloc, readiness)?;
    same(rt, got.as_str(), want, want);
    Ok(())
}

/// Marks the nodes as done in order, and asserts the letters after each.
fn goes_on(
    rt: &impl Abort,
    alloc: Global,
    graph: &Graph,
    readiness: &mut Readiness,
) -> Result<(), AllocError>
    requires { readiness.old.graph ≡ graph.now }
    ensures { OnOk result (readiness.new.graph ≡ graph.now) }
{
    for &(number, text, next) in STEPS {
        done(rt, graph, readiness, number);
        see_shown(rt, alloc, readiness, text)?;
        see_that(rt, readiness.next_idle() == next, text);
    }
    Ok(())
}

/// Asserts the letters in two makes.
fn see_makes(
    rt: &impl Abort,
    alloc: Global,
    graph: &Graph,
    readiness: &mut Readiness,
) -> Result<(), AllocError>
    requires { readiness.old.graph ≡ graph.now }
{
    see_shown(rt, alloc, readiness, "-------")?;
    begin(rt, alloc, graph, readiness, &[0])?;
    see_shown(rt, alloc, readiness, "wwt-wt-")?;
    goes_on(rt, alloc, graph, readiness)?;
    begin(rt, alloc, graph, readiness, &[6])?;
    see_shown(rt, alloc, readiness, "------t")
}

/// Asserts them for a graph.
fn see_graph(rt: &impl Abort, alloc: Global, graph: &Graph) -> Result<(), AllocError> {
    let mut readiness = Readiness::new(alloc, graph)?;
    let seen = see_makes(rt, alloc, graph, &mut readiness);
    drop(readiness);
    seen
}

#[test]
fn what_is_kept_as_nodes_are_done(rt: HostRuntime) -> Result<(), Fail> {
    let graph = graph_of(&rt, rt.alloc(), GATED)?;
    let seen = see_graph(&rt, rt.alloc(), &graph);
    drop(graph);
    Ok(seen?)
}
