//! `BitRows`, compared with plain loops and with `Greedy`.

ghost use Rattle.std.specs.Prelude.{◌<◌};

use crate::graph_fixtures::{
    built, graph_of, greatest_chain, is_sound, same_number, see_along, see_before, see_that, told,
};
use mk_graph::{BitRows, Graph, GraphFault, Greedy, Groups, Node, Without, meet, unite};
use mk_lines::Name;
use std::alloc::{AllocError, Global};
use std::process::Abort;
use std::test::Fail;

/// Pseudorandom words from a seed.
fn some_words(alloc: Global, count: usize, seed: u64) -> Result<Vec<u64>, AllocError> {
    let mut words = Vec::new(alloc);
    let mut state = seed;
    for _ in 0..count {
        state = state
            .wrapping_mul(6364136223846793005)
            .wrapping_add(1442695040888963407);
        words.push(state)?;
    }
    Ok(words)
}

/// The union of words, one by one.
fn united(alloc: Global, words: &[u64], others: &[u64]) -> Result<Vec<u64>, AllocError> {
    words
        .iter()
        .zip(others)
        .map(|(word, other)| *word | *other)
        .collect(alloc)
}

/// The intersection of words, one by one.
fn met(alloc: Global, words: &[u64], others: &[u64]) -> Result<Vec<u64>, AllocError> {
    words
        .iter()
        .zip(others)
        .map(|(word, other)| *word & *other)
        .collect(alloc)
}

/// Asserts that `unite` gives the plain union.
fn see_union(rt: &impl Abort, words: &mut [u64], others: &[u64], plain: &[u64]) {
    assert_eq!(rt; words.len(), others.len());
    unite(words, others);
    see_that(rt, *words == *plain, "united words");
}

#[test]
fn unions_of_each_length(rt: HostRuntime) -> Result<(), Fail> {
    for count in 0usize..21 {
        let mut words = some_words(rt.alloc(), count, 1)?;
        let others = some_words(rt.alloc(), count, 2)?;
        let plain = united(rt.alloc(), &words, &others)?;
        see_union(&rt, &mut words, &others, &plain);
    }
    Ok(())
}

/// Asserts that `meet` gives the plain intersection.
fn see_intersection(rt: &impl Abort, words: &mut [u64], others: &[u64], plain: &[u64]) {
    assert_eq!(rt; words.len(), others.len());
    meet(words, others);
    see_that(rt, *words == *plain, "words that are met");
}

#[test]
fn intersections_of_each_length(rt: HostRuntime) -> Result<(), Fail> {
    for count in 0usize..21 {
        let mut words = some_words(rt.alloc(), count, 3)?;
        let others = some_words(rt.alloc(), count, 4)?;
        let plain = met(rt.alloc(), &words, &others)?;
        see_intersection(&rt, &mut words, &others, &plain);
    }
    Ok(())
}

/// Whether `o` runs before `t`, by the set of predecessors of `t`.
fn precedes(rows: &BitRows<'_>, o: usize, t: usize) -> bool {
    match rows.predecessors(t) {
        Some(set) => set.has(o),
        None => true,
    }
}

/// Asserts that `BitRows::before`, `BitRows::predecessors`, `Greedy` and `Without` agree on which
/// nodes the node runs before that `without` leaves out.
fn compare_with(
    rt: &impl Abort,
    rows: &BitRows<'_>,
    greedy: &Greedy<'_>,
    without: &Without<'_>,
    count: usize,
) {
    let o = without.other();
    for t in 0..count {
        see_before(rt, told(rows, o, t), told(greedy, o, t), (o, t));
        see_before(rt, told(rows, o, t), without.is_before(t), (o, t));
        see_before(rt, told(rows, o, t), precedes(rows, o, t), (o, t));
    }
}

/// Makes this comparison for every `o`.
fn compare_each(rt: &impl Abort, graph: &Graph, rows: &BitRows<'_>, greedy: &Greedy<'_>) {
    let count = graph.nodes().len();
    for o in 0..count {
        let without = Without::new(graph, o);
        same_number(rt, without.other(), o, "the node without");
        compare_with(rt, rows, greedy, &without, count);
    }
}

/// Asserts that `BitRows` and `Greedy` agree on numbers that aren't nodes.
fn compare_past(rt: &impl Abort, rows: &BitRows<'_>, greedy: &Greedy<'_>, count: usize) {
    see_before(rt, told(rows, count, 0), told(greedy, count, 0), (count, 0));
    see_before(rt, told(rows, 0, count), true, (0, count));
    see_before(rt, told(rows, 5000, 0), told(greedy, 5000, 0), (5000, 0));
}

/// Asserts that all implementations agree on every pair of nodes, and that `BitRows` and `Greedy`
/// agree on numbers that aren't nodes.
fn compare(rt: &impl Abort, graph: &Graph, rows: &BitRows<'_>) {
    let greedy = Greedy::new(graph);
    compare_each(rt, graph, rows, &greedy);
    compare_past(rt, rows, &greedy, graph.nodes().len());
}

/// A graph, two of its nodes, and whether the first runs before the second and the second before
/// the first: with two parallel waits, with one wait, with a wait between waits, and with one node
/// alone.
const ORDERS: &[(&str, (usize, usize), (bool, bool))] = &[
    ("all:12 p:3|4 q:4|3 e! n!", (3, 4), (false, false)),
    ("all:1 p:2|3 e! n!", (2, 3), (true, false)),
    ("all:1|2 p:3|4 q:4|3 e! n!", (3, 4), (true, false)),
    ("a!", (0, 0), (false, false)),
];

/// Asserts whether each of two nodes runs before the other, and compares the implementations.
fn see_order(
    rt: &impl Abort,
    alloc: Global,
    graph: &Graph,
    numbers: (usize, usize),
    want: (bool, bool),
) -> Result<(), AllocError> {
    let order = BitRows::new(alloc, graph)?;
    let (a, b) = numbers;
    see_before(rt, told(&order, a, b), want.0, (a, b));
    see_before(rt, told(&order, b, a), want.1, (b, a));
    compare(rt, graph, &order);
    Ok(())
}

#[test]
fn orders_of_two(rt: HostRuntime) -> Result<(), Fail> {
    for &(rows, numbers, want) in ORDERS {
        let graph = graph_of(&rt, rt.alloc(), rows)?;
        see_order(&rt, rt.alloc(), &graph, numbers, want)?;
    }
    Ok(())
}

#[test]
fn no_nodes(rt: HostRuntime) -> Result<(), Fail> {
    let alloc = rt.alloc();
    let none = built(&rt, alloc, Vec::new(alloc), &[])?;
    let order = BitRows::new(alloc, &none)?;
    see_before(&rt, told(&order, 0, 0), true, (0, 0));
    Ok(())
}

#[test]
fn along_the_greatest_chain(rt: HostRuntime) -> Result<(), Fail> {
    let graph = greatest_chain(&rt, rt.alloc())?;
    let order = BitRows::new(rt.alloc(), &graph)?;
    see_along(&rt, &order);
    see_that(&rt, order.rounds() <= 2, "two rounds");
    Ok(())
}

/// From `count` numbers starting at `first`, those whose bit is set in `code`.
fn some_of(
    alloc: Global,
    first: usize,
    count: usize,
    code: usize,
) -> Result<Vec<usize>, AllocError> {
    let mut group = Vec::new(alloc);
    let mut rest = code;
    for number in first..first.saturating_add(count) {
        if rest % 2 == 1 {
            group.push(number)?;
        }
        rest /= 2;
    }
    Ok(group)
}

/// Three groups of higher-numbered nodes out of ten, chosen by the codes.
fn groups_at(alloc: Global, codes: &[u64], number: usize) -> Result<Vec<Vec<usize>>, AllocError>
    requires { number < 10 }
{
    let mut groups = Vec::new(alloc);
    for part in 0usize..3 {
        let code = codes
            .get(number * 3 + part)
            .map_or(0, |word| (*word >> 40) as usize);
        groups.push(some_of(alloc, number + 1, 9 - number, code & (code >> 10))?)?;
    }
    Ok(groups)
}

/// One of ten nodes, chosen by the codes.
fn node_at(alloc: Global, codes: &[u64], number: usize) -> Result<Node, AllocError>
    requires { number < 10 }
{
    let name = format!(in alloc; "{number}")?;
    let groups = groups_at(alloc, codes, number)?;
    Ok(Node {
        name: Name::from_string(name),
        groups: Groups::new(groups),
        recipe: codes.get(number).map_or(true, |word| *word % 4 > 0),
        phony: false,
    })
}

/// Ten nodes, each with three groups of higher-numbered ones, chosen by a seed.
fn ten_nodes(alloc: Global, seed: u64) -> Result<Vec<Node>, AllocError> {
    let codes = some_words(alloc, 30, seed)?;
    let mut nodes = Vec::new(alloc);
    for number in 0usize..10 {
        nodes.push(node_at(alloc, &codes, number)?)?;
    }
    Ok(nodes)
}

/// The goals: node 0, and some of the others, chosen by a seed.
fn goals_at(alloc: Global, seed: u64) -> Result<Vec<usize>, AllocError> {
    let mut goals = vec![in alloc; 0]?;
    goals.extend_from_slice(&some_of(alloc, 1, 9, seed as usize % 7)?)?;
    Ok(goals)
}

/// Compares the implementations on a graph.
fn compare_graph(rt: &impl Abort, alloc: Global, graph: &Graph) -> Result<(), AllocError> {
    compare(rt, graph, &BitRows::new(alloc, graph)?);
    Ok(())
}

/// Compares the implementations on the graph of these nodes and goals, if they are sound. Returns
/// whether they are.
fn compare_sound(
    rt: &impl Abort,
    alloc: Global,
    nodes: Vec<Node>,
    goals: Vec<usize>,
) -> Result<bool, GraphFault> {
    if !is_sound(alloc, &nodes, &goals)? {
        return Ok(false);
    }
    compare_graph(rt, alloc, &Graph::build(alloc, nodes, goals)?)?;
    Ok(true)
}

#[test]
fn beside_the_greedy_order(rt: HostRuntime) -> Result<(), Fail> {
    let alloc = rt.alloc();
    let mut compared: usize = 0;
    for seed in 0u64..400 {
        let nodes = ten_nodes(alloc, seed)?;
        if compare_sound(&rt, alloc, nodes, goals_at(alloc, seed)?)? {
            compared = compared.saturating_add(1);
        }
    }
    same_number(&rt, compared, 240, "sound graphs");
    Ok(())
}
