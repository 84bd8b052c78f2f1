//! What is computed once for a graph and used by all makes.

ghost use Rattle.std.specs.Prelude.{◌≡◌, ◌<◌, ℕ, length, slice_index, IfOk};
ghost use Rattle.mk_graph.specs.Membership.{Has};
ghost use Rattle.mk_graph.specs.Graph.{IsGraph, prerequisites};
ghost use Rattle.mk_graph.specs.Serial.{serial_order};

use crate::rows::{places_of, users_of};
use mk_graph::{Graph, laws};
use std::alloc::{AllocError, Global};
use std::marker::Model;

/// A graph with its serial order, the place of each node in it, and the users of each node: the
/// nodes that list it as a prerequisite. Contracts see the graph alone.
#[derive(Drop)]
pub(crate) struct Layout<'a> {
    graph: &'a Graph,
    order: Vec<usize>,
    places: Vec<usize>,
    users: Vec<Vec<usize>>,
}

impl<'a> Model for Layout<'a> {
    ghost use Rattle.std.specs.Prelude.{◌≡◌, length};
    ghost use Rattle.mk_graph.specs.Graph as value;
    ghost use Rattle.mk_graph.specs.Serial.{serial_order};
    ghost use Rattle.mk_graph_ready.specs.Layout.{ArePlaces, AreUsers};

    ghost Value = { value.Graph };

    ghost view = { λ l. l.graph.now };

    ghost invariant = { λ l. value.IsGraph l.graph.now ×
        (l.order.items ≡ serial_order l.graph.now) ×
        (length l.places.items ≡ length l.graph.now.nodes) ×
        ArePlaces l.order.items l.places.items ×
        AreUsers l.graph.now l.users.items };
}

impl<'a> Layout<'a> {
    /// The layout of a graph. The only error is out of memory.
    pub fn new(alloc: Global, graph: &'a Graph) -> Result<Layout<'a>, AllocError>
        ensures { IfOk result (λ layout. layout ≡ graph.entry.now) }
    {
        laws::serial_reaches_each_once();
        let order = graph.serial()?;
        let places = places_of(alloc, &order, graph.nodes().len())?;
        Ok(Layout {
            graph,
            order,
            places,
            users: users_of(alloc, graph)?,
        })
    }

    /// The graph.
    pub fn graph(&self) -> &'a Graph
        ensures value { result.now ≡ self.now }
        ensures graph { IsGraph self.now }
    {
        self.graph
    }

    /// The serial order of the nodes.
    pub fn order(&self) -> &[usize]
        ensures value { result.now ≡ serial_order self.now }
        ensures graph { IsGraph self.now }
    {
        self.order.as_slice()
    }

    /// The place of a node in the serial order.
    pub fn place(&self, number: usize) -> usize
        requires { number < length self.now.nodes }
        ensures graph { IsGraph self.now }
        ensures within { result < length (serial_order self.now) }
        ensures is { slice_index (serial_order self.now) result ≡ number }
        ensures only { (i : ℕ) → i < length (serial_order self.now) →
            slice_index (serial_order self.now) i ≡ number → i ≡ result }
    {
        laws::serial_reaches_each_once();
        self.places[number]
    }

    /// The nodes that list a node as a direct prerequisite.
    pub fn users(&self, number: usize) -> &[usize]
        requires { number < length self.now.nodes }
        ensures nodes { (p : ℕ) → Has result.now p → p < length self.now.nodes }
        ensures all { (p : ℕ) → p < length self.now.nodes →
            Has (prerequisites self.now p) number → Has result.now p }
    {
        &self.users[number]
    }
}
