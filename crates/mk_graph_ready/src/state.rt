//! The state of a make.

ghost use Rattle.std.specs.Prelude.{◌≡◌, ◌<◌, ◌⊎◌, ◌↔◌, ℕ, List, length, map, IfOk};
ghost use Rattle.mk_graph.specs.Membership.{Has};
ghost use Rattle.mk_graph.specs.Graph.{node};
ghost use Rattle.mk_graph.specs.Without.{joined};
ghost use Rattle.mk_graph_ready.specs.RemainingGroups.{IsLeft, IsStopped};
ghost use Rattle.mk_graph_ready.specs.Stages.{Wakes, Wants, WantsOpened, work};
ghost use Rattle.mk_graph_ready.specs.Stage.{IsToCheck, IsUnwanted};
ghost use Rattle.mk_graph_ready.specs.State.{IsAtRest, Stands, fresh};

use crate::bytes::Bytes;
use crate::layout::Layout;
use crate::remaining_groups::RemainingGroups;
use mk_graph::{Graph, NodeSet, schedule_laws};
use std::alloc::{AllocError, Global};

/// The stage of a node that isn't wanted.
const NEW: u8 = 0;

/// The stage of a wanted node that must be checked. It is 1, the byte that `Bytes` finds fast.
const WANTED: u8 = 1;

/// The stage of a node that was checked: it waits for a prerequisite, or all of them are done.
const SETTLED: u8 = 2;

/// The state of a make: the stage of each node, what remains of its groups, and a mark at each
/// place of the serial order whose node is idle.
#[derive(Drop)]
pub(crate) struct State<'a> {
    pub goals: NodeSet,
    pub done: NodeSet,
    pub stages: Bytes,
    pub left: Vec<RemainingGroups<'a>>,
    pub marks: Bytes,
}

/// Makes the members of a group wanted.
fn want_all(stages: &mut Bytes, group: &[usize])
    requires { (n : ℕ) → Has group.now n → n < length stages.old }
    ensures { Wants stages.old stages.new group.now }
{
    for number in group {
        if stages.at(*number) != NEW {
            continue;
        }
        stages.write_one(*number);
    }
}

/// Marks the wanted ones of these nodes to be checked again.
fn wake(stages: &mut Bytes, numbers: &[usize])
    requires { (n : ℕ) → Has numbers.now n → n < length stages.old }
    ensures { Wakes stages.old stages.new numbers.now }
{
    for number in numbers {
        if stages.at(*number) == NEW {
            continue;
        }
        stages.write_one(*number);
    }
}

/// Skips to the first prerequisite that isn't done, and opens groups on the way.
fn advance(done: &NodeSet, stages: &mut Bytes, left: &mut RemainingGroups)
    requires { (n : ℕ) → Has (joined left.old.behind) n → n < length stages.old }
    ensures wants { WantsOpened stages.old stages.new done.now left.old }
    ensures left { (groups : List (List ℕ)) →
        IsLeft stages.old done.now groups left.old →
        IsLeft stages.new done.now groups left.new }
    ensures stopped { IsStopped done.now left.new }
{
    while let Some(group) = left.next(done) {
        want_all(stages, group);
    }
}

/// What remains of each node's groups before any is open: all of them.
fn lefts_of<'a>(alloc: Global, graph: &'a Graph) -> Result<Vec<RemainingGroups<'a>>, AllocError>
    ensures { IfOk result (λ lefts. lefts.items ≡ map fresh graph.entry.now.nodes) }
{
    let nodes = graph.nodes();
    let mut lefts = Vec::with_capacity(alloc, nodes.len())?;
    for node in nodes {
        lefts.push(RemainingGroups::new(node.groups.as_slice()))?;
    }
    Ok(lefts)
}

/// Whether a node has a recipe.
fn has_recipe(graph: &Graph, number: usize) -> bool
    ensures { result ≡ (node graph.now number).recipe }
{
    match graph.nodes().get(number) {
        Some(node) => node.recipe,
        None => false,
    }
}

impl<'a> State<'a> {
    /// The state in which nothing is wanted. The only error is out of memory.
    pub fn new(alloc: Global, layout: &Layout<'a>) -> Result<State<'a>, AllocError>
        ensures stands { IfOk result (λ state. Stands layout.now state) }
        ensures rest { IfOk result (λ state. (n : ℕ) → IsUnwanted state.stages n) }
        ensures goals { IfOk result (λ state. (n : ℕ) → ¬ (Has state.goals n)) }
        ensures done { IfOk result (λ state. (n : ℕ) → ¬ (Has state.done n)) }
    {
        let graph = layout.graph();
        Ok(State {
            goals: NodeSet::new(),
            done: NodeSet::new(),
            stages: Bytes::zeros(alloc, graph.nodes().len())?,
            left: lefts_of(alloc, graph)?,
            marks: Bytes::zeros(alloc, layout.order().len())?,
        })
    }

    /// The state at the begin of a make of these goals. The only error is out of memory.
    pub fn start(
        alloc: Global,
        layout: &Layout<'a>,
        goals: &[usize],
    ) -> Result<State<'a>, AllocError>
        requires { (n : ℕ) → Has goals.now n → n < length layout.now.nodes }
        ensures stands { IfOk result (λ state. Stands layout.now state) }
        ensures rest { IfOk result (λ state. IsAtRest state) }
        ensures goals { IfOk result (λ state. (n : ℕ) → Has state.goals n ↔ Has goals.now n) }
        ensures done { IfOk result (λ state. (n : ℕ) → ¬ (Has state.done n)) }
    {
        let mut state = State::new(alloc, layout)?;
        state.want_goals(layout, goals);
        state.settle(layout);
        Ok(state)
    }

    /// Makes the goals wanted, in a state in which nothing is.
    fn want_goals(&mut self, layout: &Layout, goals: &[usize])
        requires stands { Stands layout.now self.old }
        requires rest { (n : ℕ) → IsUnwanted self.old.stages n }
        requires none { (n : ℕ) → ¬ (Has self.old.goals n) }
        requires nodes { (n : ℕ) → Has goals.now n → n < length layout.now.nodes }
        ensures stands { Stands layout.now self.new }
        ensures goals { (n : ℕ) → Has self.new.goals n ↔ Has goals.now n }
        ensures done { self.new.done ≡ self.old.done }
    {
        layout.graph();
        self.goals.insert_all(goals);
        want_all(&mut self.stages, goals);
    }

    /// Checks a node, if it must be checked.
    fn look(&mut self, layout: &Layout, number: usize)
        requires stands { Stands layout.now self.old }
        requires node { number < length layout.now.nodes }
        ensures stands { Stands layout.now self.new }
        ensures goals { self.new.goals ≡ self.old.goals }
        ensures done { self.new.done ≡ self.old.done }
        ensures less { IsToCheck self.old.stages number →
            work self.new.stages < work self.old.stages }
    {
        if self.stages.at(number) != WANTED {
            return;
        }
        let graph = layout.graph();
        self.stages.write(number, SETTLED);
        advance(&self.done, &mut self.stages, &mut self.left[number]);
        if self.left[number].is_over() && !has_recipe(graph, number) && !self.done.has(number) {
            self.marks.write_one(layout.place(number));
        }
    }

    /// Checks those of these nodes that must be checked.
    fn look_at_each(&mut self, layout: &Layout, numbers: &[usize])
        requires stands { Stands layout.now self.old }
        requires nodes { (n : ℕ) → Has numbers.now n → n < length layout.now.nodes }
        ensures stands { Stands layout.now self.new }
        ensures goals { self.new.goals ≡ self.old.goals }
        ensures done { self.new.done ≡ self.old.done }
    {
        for number in numbers {
            self.look(layout, *number);
        }
    }

    /// Checks nodes until none must be checked.
    fn settle(&mut self, layout: &Layout)
        requires { Stands layout.now self.old }
        ensures stands { Stands layout.now self.new }
        ensures rest { IsAtRest self.new }
        ensures goals { self.new.goals ≡ self.old.goals }
        ensures done { self.new.done ≡ self.old.done }
    {
        while let Some(number) = self.stages.first_one() {
            self.look(layout, number);
        }
    }

    /// Marks a node as done, and its users to be checked.
    fn finish(&mut self, layout: &Layout, number: usize)
        requires stands { Stands layout.now self.old }
        requires node { number < length layout.now.nodes }
        ensures stands { Stands layout.now self.new }
        ensures goals { self.new.goals ≡ self.old.goals }
        ensures done { (n : ℕ) → Has self.new.done n ↔ ((n ≡ number) ⊎ Has self.old.done n) }
    {
        schedule_laws::wanted_grows();
        schedule_laws::can_start_stays();
        let place = layout.place(number);
        self.done.insert(number);
        self.marks.write(place, 0);
        wake(&mut self.stages, layout.users(number));
    }

    /// Records that a node is done, and checks what that affects.
    pub fn mark_done(&mut self, layout: &Layout, number: usize)
        requires stands { Stands layout.now self.old }
        requires node { number < length layout.now.nodes }
        ensures stands { Stands layout.now self.new }
        ensures rest { IsAtRest self.new }
        ensures goals { self.new.goals ≡ self.old.goals }
        ensures done { (n : ℕ) → Has self.new.done n ↔ ((n ≡ number) ⊎ Has self.old.done n) }
    {
        self.finish(layout, number);
        self.look_at_each(layout, layout.users(number));
        self.settle(layout);
    }
}
