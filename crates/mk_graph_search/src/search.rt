//! A breadth-first search.

ghost use Rattle.std.specs.Prelude.{◌≡◌, IfOk, MatchOption};
ghost use Rattle.mk_graph_search.specs.Ways.{successors};
ghost use Rattle.mk_graph_search.specs.Places.{EndsAt, GoesAt, HasAtMost, IsOut, IsOutBefore};

use crate::progress::Progress;
use mk_graph::Groups;
use std::alloc::{AllocError, Global};
use std::marker::Model;

/// A breadth-first search for ways from a start, which visits each node's successors in order and
/// goes only as far as the queries need. Contracts see what it searches, which never changes, and
/// not its progress.
///
/// Each node that can be reached has a first way, in the order that `specs/Ways.antt` defines. The
/// search numbers these ways by their places in that order. At place 0 is the start, with the empty
/// way.
#[derive(Drop)]
pub struct Search<'a> {
    rows: &'a Groups,
    progress: Progress,
}

impl<'a> Model for Search<'a> {
    ghost use Rattle.mk_graph_search.specs.Places.{SearchInput};

    ghost Value = { SearchInput };

    ghost use Rattle.mk_graph_search.specs.Ways.{successors};
    ghost use Rattle.mk_graph_search.specs.Progress.{Stands};

    ghost view = { λ s. record { rows = s.rows.now; start = s.progress.start } };

    ghost invariant = { λ s. Stands (successors s.rows.now) s.progress.start s.progress.visits
        s.progress.at s.progress.looked };
}

impl<'a> Search<'a> {
    /// A search from this start over rows of successors; a node without a row has no successors.
    /// The only error is out of memory. The time doesn't depend on the number of rows.
    pub fn new(alloc: Global, rows: &'a Groups, start: usize) -> Result<Search<'a>, AllocError>
        ensures { IfOk result (λ search.
            search ≡ record { rows = rows.entry.now; start = start }) }
    {
        Ok(Search {
            rows,
            progress: Progress::new(alloc, start)?,
        })
    }

    /// The node at the end of the way at this place, or `None` if there are no more ways. The only
    /// error is out of memory; the search may be used after it. Each successor is visited once,
    /// over all queries together.
    pub fn visit(&mut self, place: usize) -> Result<Option<usize>, AllocError>
        ensures same { self.new ≡ self.old }
        ensures found { IfOk result (λ found. MatchOption found
            (HasAtMost (successors self.old.rows) self.old.start place)
            (λ node. EndsAt (successors self.old.rows) self.old.start place node)) }
    {
        self.progress.go_on_to(self.rows, place)?;
        let visits = &self.progress.visits;
        if place < visits.len() {
            Ok(Some(visits.at(place).node))
        } else {
            Ok(None)
        }
    }

    /// The place of the first way that ends at this node, or `None` if no way does. Errors are as
    /// for `visit`.
    pub fn place_of(&mut self, node: usize) -> Result<Option<usize>, AllocError>
        ensures same { self.new ≡ self.old }
        ensures found { IfOk result (λ found. MatchOption found
            (IsOut (successors self.old.rows) self.old.start node)
            (λ place. EndsAt (successors self.old.rows) self.old.start place node)) }
    {
        self.progress.go_on_until(self.rows, node)?;
        Ok(self.progress.visits.place_of(node))
    }

    /// A place before which no way ends at this node: the node's place if the search has found it,
    /// else how far the search has come. The search doesn't go on.
    pub fn least_place_of(&self, node: usize) -> usize
        ensures { IsOutBefore (successors self.now.rows) self.now.start result node }
    {
        let visits = &self.progress.visits;
        match visits.place_of(node) {
            Some(place) => place,
            None => visits.len(),
        }
    }

    /// The nodes along the way at this place, from the start to its end, or `None` if there are no
    /// more ways. Errors are as for `visit`.
    pub fn way(&mut self, alloc: Global, place: usize) -> Result<Option<Vec<usize>>, AllocError>
        ensures same { self.new ≡ self.old }
        ensures found { IfOk result (λ found. MatchOption found
            (HasAtMost (successors self.old.rows) self.old.start place)
            (λ nodes. GoesAt (successors self.old.rows) self.old.start place nodes.items)) }
    {
        self.progress.go_on_to(self.rows, place)?;
        if place < self.progress.visits.len() {
            Ok(Some(self.progress.along(alloc, self.rows, place)?))
        } else {
            Ok(None)
        }
    }
}
