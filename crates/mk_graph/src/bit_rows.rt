//! The happens-before relation of a graph, computed once, as bit matrices.
//!
//! Each node has two rows. The first row holds the nodes that are done whenever the node is wanted,
//! and the done row those that are done whenever the node is done. Each group of a node's
//! prerequisites is behind a gate: the union of the node's first row and the done rows of the
//! members of its earlier groups. A node's first row is the intersection of the gates of all groups
//! that contain the node. Its done row is the union of its first row, the node itself, and the done
//! rows of its prerequisites. All rows begin full. Rounds over the serial order clear bits until a
//! round clears none.

ghost use Rattle.std.specs.Prelude.{◌≡◌, ℕ, ◌+◌, ◌*◌, ◌^◌, ◌<◌, ◌≤◌, ◌↔◌, false, length, replicate, sum, slice_index, IfOk, MatchOption};
ghost use Rattle.mk_graph.specs.Membership.{Has};
ghost use Rattle.mk_graph.specs.Schedules.{Before};
ghost use Rattle.mk_graph.specs.Graph.{IsGraph};
ghost use Rattle.mk_graph.specs.BitRows.{Lacks, RowLacks, RowsLack, LackMore, HaveRows, IsSized, lists, listed, GateLacks, TargetLacks, Stays, PassesGates, PassesTargets, OnlyIfWanted, OnlyIfFree, AreSettled};

use crate::graph::Graph;
use crate::node_set::NodeSet;
use crate::order::Order;
use crate::rows::{has, insert, meet_row, meet_rows, row, some_has, unite_rows};
use std::alloc::{AllocError, Global};
use std::marker::Model;

/// The happens-before relation of a graph, in two rows of bits for each node.
#[derive(Drop)]
pub struct BitRows<'a> {
    graph: &'a Graph,
    stride: usize,
    first: Vec<u64>,
    done: Vec<u64>,
    rounds: usize,
}

impl<'a> Model for BitRows<'a> {
    ghost use Rattle.mk_graph.specs.Graph as value;
    ghost use Rattle.mk_graph.specs.BitRows.{AreBitRowsOf};

    ghost Value = { value.Graph };

    ghost view = { λ it. it.graph.now };

    ghost invariant = { λ it.
        AreBitRowsOf it.graph.now it.stride it.first.items it.done.items it.rounds };
}

impl<'a> BitRows<'a> {
    /// Computes the relation for this graph. The only error is out of memory.
    ///
    /// A round takes time proportional to the number of prerequisites of all nodes times the words
    /// of a row, one for each 64 nodes. The rows take 4 MB for 4,096 nodes.
    pub fn new(alloc: Global, graph: &'a Graph) -> Result<BitRows<'a>, AllocError>
        ensures { IfOk result (λ order. order ≡ graph.now) }
    {
        let count = graph.nodes().len();
        let stride = (count + 63) / 64;
        let mut first = vec![in alloc; u64::MAX; count * stride]?;
        let mut done = vec![in alloc; u64::MAX; count * stride]?;
        let rounds = settle(graph, stride, &mut first, &mut done);
        Ok(BitRows {
            graph,
            stride,
            first,
            done,
            rounds,
        })
    }

    /// The number of rounds, at least one. The last round cleared nothing.
    pub fn rounds(&self) -> usize
        ensures { 0 < result }
    {
        self.rounds
    }

    /// The set of nodes that run before `t`, or `None` if every node does, because `t` has no
    /// recipe or isn't a node.
    ///
    /// The time is linear in the number of prerequisites of `t` times the words of a row, the same
    /// as for one call of `before`. It allocates nothing.
    pub fn predecessors(&self, t: usize) -> Option<NodeSet>
        ensures { MatchOption result ((o : ℕ) → Before self.now o t)
            (λ set. (o : ℕ) → Has set o ↔ Before self.now o t) }
    {
        let Some(node) = self.graph.nodes().get(t) else {
            return None;
        };
        if !node.recipe {
            return None;
        }
        let mut words = [0u64; 64];
        let first = row(&self.first, self.stride, t);
        join_rows(
            &mut words,
            first,
            &self.done,
            self.stride,
            node.groups.as_slice(),
        );
        Some(NodeSet::of(words))
    }
}

impl<'a> Order for BitRows<'a> {
    ghost graph_of = { λ it. it };

    /// The time is linear in the number of prerequisites of `t`. It allocates nothing.
    fn before(&self, o: usize, t: usize) -> bool {
        let Some(node) = self.graph.nodes().get(t) else {
            return true;
        };
        if !node.recipe {
            return true;
        }
        if has(&self.first, self.stride, t, o) {
            return true;
        }
        groups_have(&self.done, self.stride, node.groups.as_slice(), o)
    }
}

/// Whether `member` is in the row of some number of these groups.
fn groups_have(words: &[u64], stride: usize, groups: &[Vec<usize>], member: usize) -> bool
    requires { HaveRows stride words.now (listed groups.now) }
    ensures { (result ≡ false) ↔ RowsLack stride words.now (listed groups.now) member }
{
    for group in groups {
        if some_has(words, stride, group, member) {
            return true;
        }
    }
    false
}

/// Adds the rows of all numbers of these groups to the gate.
fn unite_groups(gate: &mut [u64], words: &[u64], stride: usize, groups: &[Vec<usize>])
    requires rows { HaveRows stride words.now (listed groups.now) }
    requires size { length gate.old ≡ stride }
    ensures { (o : ℕ) → Lacks gate.new o
        ↔ Lacks gate.old o × RowsLack stride words.now (listed groups.now) o }
{
    for group in groups {
        unite_rows(gate, words, stride, group);
    }
}

/// Sets the empty `words` to the union of `own` and the rows of all numbers of these groups.
fn join_rows(words: &mut [u64], own: &[u64], done: &[u64], stride: usize, groups: &[Vec<usize>])
    requires empty { words.old ≡ replicate 64 0 }
    requires narrow { length own.now ≡ stride }
    requires size { stride ≤ 64 }
    requires rows { HaveRows stride done.now (listed groups.now) }
    ensures { (o : ℕ) → Lacks words.new o
        ↔ Lacks own.now o × RowsLack stride done.now (listed groups.now) o }
{
    let gate = &mut words[..stride];
    gate.copy_from_slice(own);
    unite_groups(gate, done, stride, groups);
}

/// Intersects the first rows of a node's prerequisites with their gates.
fn pass_gates(first: &mut [u64], done: &[u64], stride: usize, number: usize, groups: &[Vec<usize>])
    requires narrow { stride ≤ 64 }
    requires own { number * stride + stride ≤ length first.old }
    requires sizes { length done.now ≡ length first.old }
    requires rows { HaveRows stride done.now (listed groups.now) }
    ensures { LackMore stride first.old first.new
        (GateLacks stride first.old done.now number (lists groups.now)) }
{
    let mut words = [0u64; 64];
    let gate = &mut words[..stride];
    gate.copy_from_slice(row(first, stride, number));
    for (place, group) in groups.iter().enumerate() {
        meet_rows(first, stride, group, gate);
        if place + 1 < groups.len() {
            unite_rows(gate, done, stride, group);
        }
    }
}

/// Clears from the done row of a node what is neither the node itself nor in its first row nor in
/// the done row of a prerequisite.
fn pass_target(first: &[u64], done: &mut [u64], stride: usize, number: usize, groups: &[Vec<usize>])
    requires narrow { stride ≤ 64 }
    requires own { number * stride + stride ≤ length first.now }
    requires bit { number < 64 * stride }
    requires sizes { length done.old ≡ length first.now }
    requires rows { HaveRows stride done.old (listed groups.now) }
    ensures { LackMore stride done.old done.new
        (λ n o. (n ≡ number) × TargetLacks stride first.now done.old number (listed groups.now) o) }
{
    let mut words = [0u64; 64];
    let gate = &mut words[..stride];
    gate.copy_from_slice(row(first, stride, number));
    insert(gate, number);
    unite_groups(gate, done, stride, groups);
    meet_row(done, stride, number, gate);
}

/// Clears the first rows of the goals.
fn clear_goals(graph: &Graph, stride: usize, first: &mut [u64])
    requires { IsSized graph.now stride first.old }
    ensures { LackMore stride first.old first.new (λ n o. Has graph.now.goals n) }
{
    let words = [0u64; 64];
    meet_rows(first, stride, graph.goals(), &words[..stride]);
}

/// Passes the gates of all nodes, each node after those that list it as a prerequisite.
fn pass_backwards(graph: &Graph, stride: usize, first: &mut [u64], done: &[u64])
    requires first { IsSized graph.now stride first.old }
    requires done { IsSized graph.now stride done.now }
    requires wanted { OnlyIfWanted graph.now (RowLacks stride first.old) }
    requires free { OnlyIfFree graph.now (RowLacks stride done.now) }
    ensures stays { Stays (RowLacks stride first.old) (RowLacks stride first.new) }
    ensures gates { PassesGates graph.now (RowLacks stride first.old) (RowLacks stride done.now)
        (RowLacks stride first.new) }
    ensures wanted { OnlyIfWanted graph.now (RowLacks stride first.new) }
{
    let nodes = graph.nodes();
    let order = graph.order();
    let mut place = order.len();
    while place > 0 {
        place -= 1;
        let n = order[place];
        pass_gates(first, done, stride, n, nodes[n].groups.as_slice());
    }
}

/// Passes all targets, each after its prerequisites.
fn pass_forwards(graph: &Graph, stride: usize, first: &[u64], done: &mut [u64])
    requires first { IsSized graph.now stride first.now }
    requires done { IsSized graph.now stride done.old }
    requires free { OnlyIfFree graph.now (RowLacks stride done.old) }
    ensures stays { Stays (RowLacks stride done.old) (RowLacks stride done.new) }
    ensures targets { PassesTargets graph.now (RowLacks stride first.now) (RowLacks stride done.old)
        (RowLacks stride done.new) }
    ensures free { OnlyIfFree graph.now (RowLacks stride done.new) }
{
    let nodes = graph.nodes();
    for n in graph.order() {
        pass_target(first, done, stride, *n, nodes[*n].groups.as_slice());
    }
}

/// The sum of the words as numbers.
fn sum_of(words: &[u64]) -> u128
    requires { length words.now ≤ 262144 }
    ensures value { result ≡ sum words.now }
    ensures bound { result ≤ 262144 * 18446744073709551615 }
    ensures fits { (k : ℕ) → slice_index words.now k < 2 ^ 64 }
{
    let mut total: u128 = 0;
    for word in words {
        total += *word as u128;
    }
    total
}

/// Settles all rows and returns the number of rounds.
///
/// In the first round full done rows would hide what is behind them. So that round first computes
/// them from empty first rows, as the nodes that each node depends on. This is enough, since what
/// is in a member's first row is in its gate anyway. Thus gates behind gates need no further
/// rounds.
fn settle(graph: &Graph, stride: usize, first: &mut [u64], done: &mut [u64]) -> usize
    requires graph { IsGraph graph.now }
    requires first { IsSized graph.now stride first.old }
    requires done { IsSized graph.now stride done.old }
    ensures settled { AreSettled graph.now (RowLacks stride first.new) (RowLacks stride done.new) }
    ensures taken { 0 < result }
{
    first.fill(0);
    done.fill(u64::MAX);
    pass_forwards(graph, stride, first, done);
    first.fill(u64::MAX);
    clear_goals(graph, stride, first);
    pass_backwards(graph, stride, first, done);
    done.fill(u64::MAX);
    pass_forwards(graph, stride, first, done);
    take_rounds(graph, stride, first, done).saturating_add(1)
}

/// Takes rounds until one clears nothing, and returns their number.
fn take_rounds(graph: &Graph, stride: usize, first: &mut [u64], done: &mut [u64]) -> usize
    requires first { IsSized graph.now stride first.old }
    requires done { IsSized graph.now stride done.old }
    requires goals { (n o : ℕ) → Has graph.now.goals n → RowLacks stride first.old n o }
    requires wanted { OnlyIfWanted graph.now (RowLacks stride first.old) }
    requires free { OnlyIfFree graph.now (RowLacks stride done.old) }
    ensures settled { AreSettled graph.now (RowLacks stride first.new) (RowLacks stride done.new) }
    ensures taken { 0 < result }
{
    let mut rounds: usize = 0;
    let mut before = sum_of(first) + sum_of(done);
    loop {
        pass_backwards(graph, stride, first, done);
        pass_forwards(graph, stride, first, done);
        rounds = rounds.saturating_add(1);
        let after = sum_of(first) + sum_of(done);
        if after == before {
            return rounds;
        }
        before = after;
    }
}
