//! `Greedy`, compared with a slow implementation that tries all schedules.

use crate::graph_fixtures::{
    graph_of, greatest_chain, is_sound, node, same_number, see_along, see_before, told,
};
use mk_graph::{Graph, GraphFault, Greedy, Node};
use std::alloc::{AllocError, Global};
use std::process::Abort;
use std::test::Fail;

/// Whether a number is marked.
fn is_marked(marks: &[bool], number: usize) -> bool {
    match marks.get(number) {
        Some(mark) => *mark,
        None => false,
    }
}

/// Marks a number.
fn mark(marks: &mut [bool], number: usize) {
    if let Some(slot) = marks.get_mut(number) {
        *slot = true;
    }
}

/// Marks all these numbers.
fn mark_all(marks: &mut [bool], numbers: &[usize]) {
    for number in numbers {
        mark(marks, *number);
    }
}

/// Whether all these numbers are marked.
fn are_marked(marks: &[bool], numbers: &[usize]) -> bool {
    for number in numbers {
        if !is_marked(marks, *number) {
            return false;
        }
    }
    true
}

/// Marks the members of each group whose earlier groups are done.
fn mark_open(wanted: &mut [bool], done: &[bool], groups: &[Vec<usize>]) {
    for group in groups {
        mark_all(wanted, group);
        if !are_marked(done, group) {
            return;
        }
    }
}

/// The nodes that a make of the marked goals wants, found in six passes over six nodes.
fn wanted(nodes: &[Node], goals: &[bool; 6], done: &[bool]) -> [bool; 6] {
    let mut wanted = *goals;
    for step in 0usize..36 {
        let number = step % 6;
        if is_marked(&wanted, number) {
            if let Some(node) = nodes.get(number) {
                mark_open(&mut wanted, done, node.groups.as_slice());
            }
        }
    }
    wanted
}

/// Whether the node can start.
fn can_start(nodes: &[Node], goals: &[bool; 6], done: &[bool], number: usize) -> bool {
    let Some(node) = nodes.get(number) else {
        return false;
    };
    for group in node.groups.as_slice() {
        if !are_marked(done, group) {
            return false;
        }
    }
    !is_marked(done, number) && is_marked(&wanted(nodes, goals, done), number)
}

/// Whether `t` can start before `o` is done, if nodes are done in the order that the code's digits
/// give.
fn comes_along(nodes: &[Node], goals: &[bool; 6], o: usize, t: usize, code: usize) -> bool {
    let mut done = [false; 6];
    let mut rest = code;
    for _ in 0..7 {
        if can_start(nodes, goals, &done, t) {
            return true;
        }
        if nodes.is_empty() {
            return false;
        }
        let next = rest % nodes.len();
        rest /= nodes.len();
        if next == o || !can_start(nodes, goals, &done, next) {
            return false;
        }
        mark(&mut done, next);
    }
    false
}

/// The goals at the positions whose bit is set in the code.
fn part_of(goals: &[usize], code: usize) -> [bool; 6] {
    let mut part = [false; 6];
    let mut rest = code;
    for goal in goals {
        if rest % 2 == 1 {
            mark(&mut part, *goal);
        }
        rest /= 2;
    }
    part
}

/// Whether `o` runs before `t` in each make of these goals, for at most six nodes.
fn is_before_in(nodes: &[Node], goals: &[bool; 6], o: usize, t: usize) -> bool {
    let counts: [usize; 7] = [1, 1, 4, 27, 256, 3125, 46656];
    let Some(count) = counts.get(nodes.len()) else {
        return false;
    };
    for code in 0..*count {
        if comes_along(nodes, goals, o, t, code) {
            return false;
        }
    }
    true
}

/// Whether `o` runs before `t`, by all schedules of all makes, for at most six nodes and six goals.
fn slow_before(nodes: &[Node], goals: &[usize], o: usize, t: usize) -> bool {
    let Some(node) = nodes.get(t) else {
        return true;
    };
    if !node.recipe {
        return true;
    }
    let counts: [usize; 7] = [1, 2, 4, 8, 16, 32, 64];
    let Some(count) = counts.get(goals.len()) else {
        return false;
    };
    for code in 1..*count {
        if !is_before_in(nodes, &part_of(goals, code), o, t) {
            return false;
        }
    }
    true
}

/// Asserts that both implementations agree on every pair of numbers below seven.
fn compare(rt: &impl Abort, graph: &Graph) {
    let order = Greedy::new(graph);
    for pair in 0usize..49 {
        let (o, t) = (pair / 7, pair % 7);
        let slow = slow_before(graph.nodes(), graph.goals(), o, t);
        see_before(rt, told(&order, o, t), slow, (o, t));
    }
}

/// A graph, two of its nodes, and whether the first runs before the second and the second before
/// the first: a node that one path wants without a wait and another path after one, a node after
/// one wait, two parallel waits, one wait, and a wait between waits.
const ORDERS: &[(&str, (usize, usize), (bool, bool))] = &[
    ("all:14 x:2|3 a! b! y:3", (2, 3), (false, false)),
    ("all:1 x:2|3 a! b!", (2, 3), (true, false)),
    ("all:12 p:3|4 q:4|3 e! n!", (3, 4), (false, false)),
    ("all:1 p:2|3 e! n!", (2, 3), (true, false)),
    ("all:1|2 p:3|4 q:4|3 e! n!", (3, 4), (true, false)),
];

/// Asserts whether each of two nodes runs before the other, and compares the implementations.
fn see_order(rt: &impl Abort, graph: &Graph, numbers: (usize, usize), want: (bool, bool)) {
    let order = Greedy::new(graph);
    let (a, b) = numbers;
    see_before(rt, told(&order, a, b), want.0, (a, b));
    see_before(rt, told(&order, b, a), want.1, (b, a));
    compare(rt, graph);
}

#[test]
fn orders_of_two(rt: HostRuntime) -> Result<(), Fail> {
    for &(rows, numbers, want) in ORDERS {
        let graph = graph_of(&rt, rt.alloc(), rows)?;
        see_order(&rt, &graph, numbers, want);
    }
    Ok(())
}

#[test]
fn along_the_greatest_chain(rt: HostRuntime) -> Result<(), Fail> {
    let graph = greatest_chain(&rt, rt.alloc())?;
    see_along(&rt, &Greedy::new(&graph));
    Ok(())
}

/// The members of a group, out of nodes 1 and 2.
fn some_of_two(code: usize) -> &'static [usize] {
    match code % 4 {
        0 => &[],
        1 => &[1],
        2 => &[2],
        _ => &[1, 2],
    }
}

/// Three nodes with recipes, each with two groups of higher-numbered ones, which may be empty.
fn three_nodes(alloc: Global, code: usize) -> Result<Vec<Node>, AllocError> {
    let mut nodes = Vec::new(alloc);
    let last: &[usize] = if code / 16 % 2 == 1 { &[2] } else { &[] };
    let lasts: &[usize] = if code / 32 % 2 == 1 { &[2] } else { &[] };
    nodes.push(node(alloc, "a", &[some_of_two(code), some_of_two(code / 4)])?)?;
    nodes.push(node(alloc, "b", &[last, lasts])?)?;
    nodes.push(node(alloc, "c", &[])?)?;
    Ok(nodes)
}

/// The goals: node 0, and some of nodes 1 and 2.
fn some_goals(alloc: Global, code: usize) -> Result<Vec<usize>, AllocError> {
    let mut goals = vec![in alloc; 0]?;
    goals.extend_from_slice(some_of_two(code / 64))?;
    Ok(goals)
}

/// Compares the implementations on the graph of these nodes and goals, if they are sound. Returns
/// whether they are.
fn compare_sound(
    rt: &impl Abort,
    alloc: Global,
    nodes: Vec<Node>,
    goals: Vec<usize>,
) -> Result<bool, GraphFault> {
    if !is_sound(alloc, &nodes, &goals)? {
        return Ok(false);
    }
    compare(rt, &Graph::build(alloc, nodes, goals)?);
    Ok(true)
}

#[test]
fn all_graphs_of_three_nodes(rt: HostRuntime) -> Result<(), Fail> {
    let alloc = rt.alloc();
    let mut count: usize = 0;
    for code in 0..256 {
        let nodes = three_nodes(alloc, code)?;
        if compare_sound(&rt, alloc, nodes, some_goals(alloc, code)?)? {
            count = count.saturating_add(1);
        }
    }
    same_number(&rt, count, 217, "sound graphs");
    Ok(())
}
