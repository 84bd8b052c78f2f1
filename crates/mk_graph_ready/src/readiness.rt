//! Which nodes a make wants and which it can pass.

ghost use Rattle.std.specs.Prelude.{◌≡◌, ◌<◌, ◌↔◌, ℕ, length, true, IfOk, OnOk, OnErr, MatchOption};
ghost use Rattle.mk_graph.specs.Membership.{Has};
ghost use Rattle.mk_graph.specs.Graph.{IsGraph};
ghost use Rattle.mk_graph.specs.Serial.{serial_order};
ghost use Rattle.mk_graph.specs.Schedules.{CanStart, Wanted};
ghost use Rattle.mk_graph_ready.specs.Progress.{AreNotIdle, GoesOn, IsBlank, IsFirstIdle, Starts};

use crate::layout::Layout;
use crate::state::State;
use mk_graph::Graph;
use std::alloc::{AllocError, Global};
use std::marker::Model;

/// Which nodes a make of a graph wants and which it can pass, updated as nodes are done. One value
/// serves one make after another. Contracts see the graph, the goals of the make, and the nodes
/// that are done.
///
/// For each wanted node it keeps the position of the first prerequisite that isn't done. Over a
/// whole make the updates take a number of steps linear in the number of nodes and prerequisites. A
/// step may search for a byte in a block of 64 and in a list of blocks, one for each 64 nodes; a
/// graph has at most 4,096 nodes.
#[derive(Drop)]
pub struct Readiness<'a> {
    layout: Layout<'a>,
    state: State<'a>,
}

impl<'a> Model for Readiness<'a> {
    ghost use Rattle.mk_graph_ready.specs.Progress as value;
    ghost use Rattle.mk_graph_ready.specs.State.{IsAtRest, Stands};

    ghost Value = { value.Progress };

    ghost view = { λ r. record {
      graph = r.layout;
      goals = r.state.goals;
      done = r.state.done;
    } };

    ghost invariant = { λ r. Stands r.layout r.state × IsAtRest r.state };
}

impl<'a> Readiness<'a> {
    /// The state for a graph without a make in progress. The only error is out of memory.
    pub fn new(alloc: Global, graph: &'a Graph) -> Result<Readiness<'a>, AllocError>
        ensures { IfOk result (λ readiness. IsBlank graph.entry.now readiness) }
    {
        let layout = Layout::new(alloc, graph)?;
        let state = State::new(alloc, &layout)?;
        Ok(Readiness { layout, state })
    }

    /// Begins a make of these goals. The only error is out of memory, which changes nothing.
    pub fn start(&mut self, alloc: Global, goals: &[usize]) -> Result<(), AllocError>
        requires { (n : ℕ) → Has goals.now n → n < length self.old.graph.nodes }
        ensures ok { OnOk result (Starts self.old self.new goals.now) }
        ensures err { OnErr result (self.new ≡ self.old) }
    {
        self.state = State::start(alloc, &self.layout, goals)?;
        Ok(())
    }

    /// Records that a node is done.
    pub fn mark_done(&mut self, number: usize)
        requires { number < length self.old.graph.nodes }
        ensures { GoesOn self.old self.new number }
    {
        self.state.mark_done(&self.layout, number);
    }

    /// Whether a node is wanted.
    pub fn is_wanted(&self, number: usize) -> bool
        ensures { (result ≡ true) ↔ Wanted self.now.graph self.now.goals self.now.done number }
    {
        self.state.stages.at(number) != 0
    }

    /// Whether a node can start: it is wanted, it isn't done, and its prerequisites are done.
    pub fn can_start(&self, number: usize) -> bool
        ensures { (result ≡ true) ↔ CanStart self.now.graph self.now.goals self.now.done number }
    {
        let done = &self.state.done;
        self.is_wanted(number)
            && !done.has(number)
            && done.has_all(self.layout.graph().prerequisites(number))
    }

    /// The first idle node in the serial order: one that can start and has no recipe.
    pub fn next_idle(&self) -> Option<usize>
        ensures found { MatchOption result (AreNotIdle self.now (serial_order self.now.graph))
            (λ n. IsFirstIdle self.now (serial_order self.now.graph) n) }
        ensures graph { IsGraph self.now.graph }
    {
        let order = self.layout.order();
        match self.state.marks.first_one() {
            Some(place) => Some(order[place]),
            None => None,
        }
    }
}
