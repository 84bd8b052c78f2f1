//! The nodes that a search has found, with a lookup of their places.

ghost use Rattle.std.specs.Prelude.{◌≡◌, ◌<◌, ◌≤◌, [], ◌∷◌, ◌++◌, ◌⊎◌, ℕ, length, nat_eq, IfOk, MatchOption, OnOk, OnErr};
ghost use Rattle.indexmap.specs.IndexMap.{get};
ghost use Rattle.mk_graph.specs.Membership.{Has};
ghost use Rattle.mk_graph_search.specs.Progress.{nodes_of, visit_at, IsVisited};
ghost use Rattle.mk_graph_search.specs.Visits.{AreNoted};

use indexmap::IndexMap;
use std::alloc::{AllocError, Global};
use std::marker::Model;

/// Up to this many visits, a lookup scans the list; beyond it a table is built.
const FEW: usize = 16;

/// A node that was found, and the place of the node that it is a successor of.
#[derive(Clone, Copy, Debug)]
pub(crate) struct Visit {
    pub node: usize,
    pub from: usize,
}

/// The nodes that were found, each once, in the order in which they were found. Contracts see the
/// list of visits.
#[derive(Drop)]
pub(crate) struct Visits {
    list: Vec<Visit>,
    /// The table of places of the nodes of the first `noted` visits.
    places: IndexMap<usize, usize>,
    /// How many visits are in the table. The visits after them are scanned.
    noted: usize,
}

impl Model for Visits {
    ghost use Rattle.std.specs.Prelude.{List};
    ghost use Rattle.mk_graph_search.specs.declared.visits.Visit.{Visit};
    ghost use Rattle.std.specs.Prelude.{nat_eq};
    ghost use Rattle.indexmap.specs.IndexMap.{get};
    ghost use Rattle.mk_graph_search.specs.Visits.{AreNoted};

    ghost Value = { List Visit };

    ghost view = { λ v. v.list.items };

    ghost invariant = { λ v. AreNoted v.list.items (get nat_eq v.places) v.noted };
}

/// The place of a node among the visits from `first` on.
fn place_from(list: &[Visit], first: usize, node: usize) -> Option<usize>
    ensures { MatchOption result
        ((k : ℕ) → first ≤ k → k < length list.now → ¬ ((visit_at list.now k).node ≡ node))
        (λ place. (place < length list.now) × ((visit_at list.now place).node ≡ node)) }
{
    for place in first..list.len() {
        if list[place].node == node {
            return Some(place);
        }
    }
    None
}

/// Adds all visits to the table. The only error is out of memory.
fn note_all(
    list: &[Visit],
    places: &mut IndexMap<usize, usize>,
    noted: &mut usize,
) -> Result<(), AllocError>
    requires { AreNoted list.now (get nat_eq places.old) noted.old }
    ensures { AreNoted list.now (get nat_eq places.new) noted.new }
{
    while *noted < list.len() {
        places.insert(list[*noted].node, *noted)?;
        *noted += 1;
    }
    Ok(())
}

impl Visits {
    /// The list of the first visit alone. The only error is out of memory.
    pub fn new(alloc: Global, node: usize) -> Result<Visits, AllocError>
        ensures { IfOk result (λ visits. visits ≡ record { node = node; from = 0 } ∷ []) }
    {
        let mut list = Vec::new(alloc);
        list.push(Visit { node, from: 0 })?;
        Ok(Visits {
            list,
            places: IndexMap::new(alloc),
            noted: 0,
        })
    }

    /// The number of visits.
    pub fn len(&self) -> usize
        ensures { result ≡ length self.now }
    {
        self.list.len()
    }

    /// The visit at a place.
    pub fn at(&self, place: usize) -> Visit
        requires { place < length self.now }
        ensures { result ≡ visit_at self.now place }
    {
        self.list[place]
    }

    /// The place of a node, or `None` if it wasn't found.
    pub fn place_of(&self, node: usize) -> Option<usize>
        ensures { MatchOption result (¬ (Has (nodes_of self.now) node))
            (λ place. (place < length self.now) × ((visit_at self.now place).node ≡ node)) }
    {
        if self.noted > 0 {
            if let Some(place) = self.places.get(&node) {
                return Some(*place);
            }
        }
        place_from(self.list.as_slice(), self.noted, node)
    }

    /// Adds a visit at the end, unless the node has one. The only error is out of memory, which
    /// changes nothing.
    pub fn visit(&mut self, node: usize, from: usize) -> Result<(), AllocError>
        ensures ok { OnOk result (IsVisited self.old self.new node from) }
        ensures err { OnErr result (self.new ≡ self.old) }
    {
        if self.place_of(node).is_some() {
            return Ok(());
        }
        if self.list.len() >= FEW {
            note_all(self.list.as_slice(), &mut self.places, &mut self.noted)?;
        }
        self.list.push(Visit { node, from })?;
        Ok(())
    }
}
