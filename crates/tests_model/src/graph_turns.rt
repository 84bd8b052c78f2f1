//! What a make wants, which nodes can start, and schedules that avoid a node.

use crate::graph_fixtures::{are_below, graph_of, see_before, see_that, told};
use mk_graph::{Graph, Greedy, NodeSet, schedule_without, wanted_with};
use std::alloc::{AllocError, Global};
use std::process::Abort;
use std::test::Fail;

/// `all: first second`, `first: gate .WAIT hidden`, `second: early .WAIT late`, `hidden: late`.
const GATED: &str = "all:14 first:2|3 gate! hidden!:6 second:5|6 early! late!";

/// Whether a node can start: it is wanted, it isn't done, and its prerequisites are done.
fn can_start(graph: &Graph, done: &NodeSet, number: usize) -> bool {
    let wanted = wanted_with(graph, graph.goals(), done);
    wanted.has(number) && !done.has(number) && done.has_all(graph.prerequisites(number))
}

/// Whether the list is a schedule after which `t` can start.
fn leads(graph: &Graph, turns: &[usize], t: usize) -> bool {
    let mut done = NodeSet::new();
    for number in turns {
        if *number >= 4096 || !can_start(graph, &done, *number) {
            return false;
        }
        done.insert(*number);
    }
    can_start(graph, &done, t)
}

/// Asserts the prerequisites of a node.
fn see_row(rt: &impl Abort, graph: &Graph, number: usize, want: &[usize]) {
    see_that(rt, *graph.prerequisites(number) == *want, "prerequisites");
}

#[test]
fn prerequisites_are_one_row(rt: HostRuntime) -> Result<(), Fail> {
    let graph = graph_of(&rt, rt.alloc(), GATED)?;
    see_row(&rt, &graph, 4, &[5, 6]);
    see_row(&rt, &graph, 5, &[]);
    see_row(&rt, &graph, 7, &[]);
    Ok(())
}

/// Whether a make of these goals wants a node once the nodes `done` are done.
fn is_wanted(
    rt: &impl Abort,
    graph: &Graph,
    goals: &[usize],
    done: &NodeSet,
    number: usize,
) -> bool {
    assert!(rt; are_below(goals, graph.nodes().len()));
    wanted_with(graph, goals, done).has(number)
}

/// Asserts what is wanted before and after a wait is over.
fn see_wanted(rt: &impl Abort, graph: &Graph) {
    let mut done = NodeSet::new();
    see_that(rt, is_wanted(rt, graph, graph.goals(), &done, 5), "5");
    see_that(rt, !is_wanted(rt, graph, graph.goals(), &done, 6), "no 6");
    done.insert(5);
    see_that(rt, is_wanted(rt, graph, graph.goals(), &done, 6), "6");
    see_that(rt, !is_wanted(rt, graph, &[1], &done, 6), "no 6 for 1");
}

#[test]
fn what_is_behind_a_wait_is_wanted_later(rt: HostRuntime) -> Result<(), Fail> {
    let graph = graph_of(&rt, rt.alloc(), GATED)?;
    see_wanted(&rt, &graph);
    Ok(())
}

/// Asserts that the list is a schedule without `o`, after which `t` can start.
fn see_list(rt: &impl Abort, graph: &Graph, turns: &[usize], o: usize, t: usize) {
    assert!(rt; !turns.contains(&o), "{o} in the list for {t}");
    assert!(rt; leads(graph, turns, t), "to {t} past {o}");
}

/// Asserts that there is a schedule without `o` for `t` exactly if `o` doesn't run before `t`.
fn see_turns(
    rt: &impl Abort,
    alloc: Global,
    graph: &Graph,
    o: usize,
    t: usize,
) -> Result<(), AllocError> {
    let found = schedule_without(alloc, graph, o, t)?;
    see_before(rt, told(&Greedy::new(graph), o, t), found.is_none(), (o, t));
    if let Some(turns) = &found {
        see_list(rt, graph, turns, o, t);
    }
    Ok(())
}

/// Asserts this for every pair of numbers below eight.
fn see_all_turns(rt: &impl Abort, alloc: Global, graph: &Graph) -> Result<(), AllocError> {
    for pair in 0usize..64 {
        see_turns(rt, alloc, graph, pair / 8, pair % 8)?;
    }
    Ok(())
}

#[test]
fn a_turn_list_leads_past(rt: HostRuntime) -> Result<(), Fail> {
    let graph = graph_of(&rt, rt.alloc(), GATED)?;
    see_all_turns(&rt, rt.alloc(), &graph)?;
    Ok(())
}
