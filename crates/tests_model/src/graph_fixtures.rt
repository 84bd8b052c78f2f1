//! Graphs written as text, tested to satisfy what `Graph::build` requires.

ghost use Rattle.std.specs.Prelude.{◌≡◌, ℕ, ◌<◌, length, map, false, IsTrue, IfOk};
ghost use Rattle.std.specs.List.{flat_map};
ghost use Rattle.mk_graph.specs.Membership.{Has, IsDistinct};
ghost use Rattle.tests_model.specs.Rows.{items_of, row, needs, AreRows, HaveParents, AreSound};

use mk_graph::{Graph, GraphFault, Groups, Node, Order};
use mk_lines::Name;
use std::alloc::{AllocError, Global};
use std::process::Abort;

/// Whether a node has this name.
fn has_name(nodes: &[Node], name: &str) -> bool
    ensures { result ≡ false → ¬ (Has (map (λ node. node.name) nodes.now) name.now) }
{
    for node in nodes {
        if node.name.as_str() == name {
            return true;
        }
    }
    false
}

/// Whether all names are distinct.
fn names_differ(nodes: &[Node]) -> bool
    ensures { IsTrue result → IsDistinct (map (λ node. node.name) nodes.now) }
{
    let mut place = nodes.len();
    while place > 0 {
        place -= 1;
        if has_name(&nodes[place + 1..], nodes[place].name.as_str()) {
            return false;
        }
    }
    true
}

/// Whether each number is below the bound.
pub fn are_below(numbers: &[usize], bound: usize) -> bool
    ensures { IsTrue result → (n : ℕ) → Has numbers.now n → n < bound }
{
    for n in numbers {
        if *n >= bound {
            return false;
        }
    }
    true
}

/// Whether each number in a row is the number of a row.
pub fn are_rows(rows: &[Vec<usize>]) -> bool
    ensures { IsTrue result → AreRows rows.now }
{
    for numbers in rows {
        if !are_below(numbers, rows.len()) {
            return false;
        }
    }
    true
}

/// Whether the number is in the list.
fn has_number(numbers: &[usize], number: usize) -> bool
    ensures { IsTrue result → Has numbers.now number }
{
    for n in numbers {
        if *n == number {
            return true;
        }
    }
    false
}

/// Whether a node with a smaller number has this one as a prerequisite.
fn has_parent(rows: &[Vec<usize>], number: usize) -> bool
    requires { number < length rows.now }
    ensures { IsTrue result → (n : ℕ) × (n < number) × Has (row rows.now n) number }
{
    for parent in 0..number {
        if has_number(&rows[parent], number) {
            return true;
        }
    }
    false
}

/// Whether each node is a goal, or a prerequisite of a node with a smaller number.
fn have_parents(rows: &[Vec<usize>], goals: &[usize]) -> bool
    ensures { IsTrue result → HaveParents rows.now goals.now }
{
    for number in 0..rows.len() {
        if !has_number(goals, number) && !has_parent(rows, number) {
            return false;
        }
    }
    true
}

/// A row for each node: its prerequisites, in the order of its groups.
fn rows_of(alloc: Global, nodes: &[Node]) -> Result<Vec<Vec<usize>>, AllocError>
    ensures { IfOk result (λ rows. items_of rows.items ≡ map needs nodes.now) }
{
    let mut rows = Vec::with_capacity(alloc, nodes.len())?;
    for node in nodes {
        rows.push(joined(alloc, node.groups.as_slice())?)?;
    }
    Ok(rows)
}

/// The members of all groups, group by group.
fn joined(alloc: Global, groups: &[Vec<usize>]) -> Result<Vec<usize>, AllocError>
    ensures { IfOk result (λ row. row.items ≡ flat_map (λ group. group) (items_of groups.now)) }
{
    let mut row = Vec::new(alloc);
    for group in groups {
        row.extend_from_slice(group)?;
    }
    Ok(row)
}

/// Whether these satisfy what `Graph::build` requires. Nodes must be numbered so that each one that
/// isn't a goal has a smaller-numbered node that lists it.
pub fn is_sound(alloc: Global, nodes: &[Node], goals: &[usize]) -> Result<bool, AllocError>
    ensures { IfOk result (λ sound. IsTrue sound → AreSound nodes.now goals.now) }
{
    let rows = rows_of(alloc, nodes)?;
    if !names_differ(nodes) {
        return Ok(false);
    }
    if !are_rows(&rows) {
        return Ok(false);
    }
    if !are_below(goals, nodes.len()) {
        return Ok(false);
    }
    Ok(have_parents(&rows, goals))
}

/// A node with a recipe and these groups of prerequisites.
pub fn node(alloc: Global, name: &str, groups: &[&[usize]]) -> Result<Node, AllocError> {
    let mut all = Vec::new(alloc);
    for group in groups {
        all.push(Vec::from_slice(alloc, group)?)?;
    }
    Ok(Node {
        name: Name::new(alloc, name)?,
        groups: Groups::new(all),
        recipe: true,
        phony: false,
    })
}

/// The digits of a text, each as a number.
pub fn digits(alloc: Global, text: &str) -> Result<Vec<usize>, AllocError> {
    let mut numbers = Vec::new(alloc);
    for byte in text.as_bytes() {
        numbers.push(usize::from(byte.saturating_sub(b'0')))?;
    }
    Ok(numbers)
}

/// The groups of a text such as `12|3`. The empty text has none.
pub fn groups_of(alloc: Global, text: &str) -> Result<Vec<Vec<usize>>, AllocError> {
    let mut groups = Vec::new(alloc);
    if !text.is_empty() {
        for group in text.split('|') {
            groups.push(digits(alloc, group)?)?;
        }
    }
    Ok(groups)
}

/// A node from a text such as `p!:12|3`: its name, `!` if it has a recipe, and the numbers in each
/// group.
fn node_of(alloc: Global, row: &str) -> Result<Node, AllocError> {
    let (front, rest) = row.split_once(':').unwrap_or((row, ""));
    let name = front.strip_suffix('!').unwrap_or(front);
    Ok(Node {
        name: Name::new(alloc, name)?,
        groups: Groups::new(groups_of(alloc, rest)?),
        recipe: name.len() < front.len(),
        phony: false,
    })
}

/// Nodes from texts such as `p!:12|3`, separated by spaces.
pub fn nodes_of(alloc: Global, rows: &str) -> Result<Vec<Node>, AllocError> {
    let mut nodes = Vec::new(alloc);
    for row in rows.split(' ') {
        nodes.push(node_of(alloc, row)?)?;
    }
    Ok(nodes)
}

/// The graph of such nodes, with node 0 as its goal.
pub fn graph_of(rt: &impl Abort, alloc: Global, rows: &str) -> Result<Graph, GraphFault> {
    built(rt, alloc, nodes_of(alloc, rows)?, &[0])
}

/// The result of `Graph::build` for these nodes and goals.
pub fn built(
    rt: &impl Abort,
    alloc: Global,
    nodes: Vec<Node>,
    goals: &[usize],
) -> Result<Graph, GraphFault> {
    assert!(rt; is_sound(alloc, &nodes, goals)?);
    Graph::build(alloc, nodes, Vec::from_slice(alloc, goals)?)
}

/// A chain of nodes: each has the next one as its prerequisite.
pub fn chain(alloc: Global, count: usize) -> Result<Vec<Node>, AllocError>
    requires { count < 10000 }
{
    let mut nodes = Vec::new(alloc);
    for number in 0..count {
        let name = format!(in alloc; "{number}")?;
        let next = [number + 1];
        let group: &[usize] = if number + 1 < count { &next } else { &[] };
        nodes.push(node(alloc, name.as_str(), &[group])?)?;
    }
    Ok(nodes)
}

/// Whether `o` runs before `t`, by the trait.
pub fn told<T: Order>(order: &T, o: usize, t: usize) -> bool {
    order.before(o, t)
}

/// The longest chain that is a graph.
pub fn greatest_chain(rt: &impl Abort, alloc: Global) -> Result<Graph, GraphFault> {
    built(rt, alloc, chain(alloc, 4096)?, &[0])
}

/// Pairs of numbers for which the first runs before the second in the longest chain.
const ALONG: &[(usize, usize)] = &[(4095, 0), (2000, 1000), (64, 63), (0, 4096)];

/// Asserts these pairs for an implementation.
pub fn see_along<T: Order>(rt: &impl Abort, order: &T) {
    for &(o, t) in ALONG {
        see_before(rt, told(order, o, t), true, (o, t));
        see_before(rt, told(order, t, o), false, (t, o));
    }
}

/// Asserts whether the first of two nodes runs before the second.
pub fn see_before(rt: &impl Abort, got: bool, want: bool, pair: (usize, usize)) {
    let (o, t) = pair;
    assert_eq!(rt; got, want, "{o} before {t}");
}

/// Asserts that a condition holds; `what` is the message.
pub fn see_that(rt: &impl Abort, holds: bool, what: &str) {
    assert!(rt; holds, "{what}");
}

/// Asserts that two texts are equal; the message names the row.
pub fn same(rt: &impl Abort, got: &str, want: &str, row: &str) {
    assert_eq!(rt; got, want, "at {row}");
}

/// Asserts that two numbers are equal; `what` is the message.
pub fn same_number(rt: &impl Abort, got: usize, want: usize, what: &str) {
    assert_eq!(rt; got, want, "{what}");
}
