//! The state of a search.

ghost use Rattle.std.specs.Prelude.{◌≡◌, ℕ, ◌+◌, ◌^◌, ◌<◌, ◌≤◌, [], ◌∷◌, ◌⊎◌, length, IfOk, OnOk, MatchOption};
ghost use Rattle.mk_graph.specs.Membership.{Has};
ghost use Rattle.mk_graph_search.specs.Ways.{successors, along};
ghost use Rattle.mk_graph_search.specs.Places.{GoesAt};
ghost use Rattle.mk_graph_search.specs.Progress.{Stands, nodes_of};

use crate::visits::Visits;
use mk_graph::Groups;
use std::alloc::{AllocError, Global};

/// The nodes that a search has found. The first `at` of them are expanded: all their successors
/// have been visited. Of the next one, `looked` successors have been visited.
#[derive(Drop)]
pub(crate) struct Progress {
    pub start: usize,
    pub visits: Visits,
    pub at: usize,
    pub looked: usize,
}

/// The successors of a node, empty if it has no row.
fn row_of<'a>(rows: &'a Groups, node: usize) -> &'a [usize]
    ensures { result.now ≡ successors rows.now node }
{
    match rows.as_slice().get(node) {
        Some(row) => row.as_slice(),
        None => &[],
    }
}

impl Progress {
    /// A search that has found only the start. The only error is out of memory.
    pub fn new(alloc: Global, start: usize) -> Result<Progress, AllocError>
        ensures start { IfOk result (λ progress. progress.start ≡ start) }
        ensures visits { IfOk result (λ progress. progress.visits ≡
            record { node = start; from = 0 } ∷ []) }
        ensures at { IfOk result (λ progress. progress.at ≡ 0) }
        ensures looked { IfOk result (λ progress. progress.looked ≡ 0) }
    {
        Ok(Progress {
            start,
            visits: Visits::new(alloc, start)?,
            at: 0,
            looked: 0,
        })
    }

    /// Visits the successors of the next node. The only error is out of memory; the search may
    /// continue after it.
    fn expand(&mut self, rows: &Groups) -> Result<(), AllocError>
        requires stands { Stands (successors rows.now) self.old.start self.old.visits self.old.at
            self.old.looked }
        requires more { self.old.at < length self.old.visits }
        requires fits { self.old.at + 1 < 2 ^ 64 }
        ensures stands { Stands (successors rows.now) self.old.start self.new.visits self.new.at
            self.new.looked }
        ensures start { self.new.start ≡ self.old.start }
        ensures on { OnOk result (self.new.at ≡ self.old.at + 1) }
    {
        let row = row_of(rows, self.visits.at(self.at).node);
        while self.looked < row.len() {
            self.visits.visit(row[self.looked], self.at)?;
            self.looked += 1;
        }
        self.at += 1;
        self.looked = 0;
        Ok(())
    }

    /// Continues until there is a node at this place, or no more can be found. The only error is
    /// out of memory; the search may continue after it.
    pub fn go_on_to(&mut self, rows: &Groups, place: usize) -> Result<(), AllocError>
        requires { Stands (successors rows.now) self.old.start self.old.visits self.old.at
            self.old.looked }
        ensures stands { Stands (successors rows.now) self.old.start self.new.visits self.new.at
            self.new.looked }
        ensures start { self.new.start ≡ self.old.start }
        ensures reached { OnOk result ((place < length self.new.visits) ⊎
            (length self.new.visits ≤ self.new.at)) }
    {
        while self.visits.len() <= place && self.at < self.visits.len() {
            self.expand(rows)?;
        }
        Ok(())
    }

    /// Continues until this node is found, or no more can be found. The only error is out of
    /// memory; the search may continue after it.
    pub fn go_on_until(&mut self, rows: &Groups, node: usize) -> Result<(), AllocError>
        requires { Stands (successors rows.now) self.old.start self.old.visits self.old.at
            self.old.looked }
        ensures stands { Stands (successors rows.now) self.old.start self.new.visits self.new.at
            self.new.looked }
        ensures start { self.new.start ≡ self.old.start }
        ensures reached { OnOk result (Has (nodes_of self.new.visits) node ⊎
            (length self.new.visits ≤ self.new.at)) }
    {
        while self.visits.place_of(node).is_none() && self.at < self.visits.len() {
            self.expand(rows)?;
        }
        Ok(())
    }

    /// The nodes along the way to a place, from the start on. The only error is out of memory.
    pub fn along(
        &self,
        alloc: Global,
        rows: &Groups,
        place: usize,
    ) -> Result<Vec<usize>, AllocError>
        requires stands { Stands (successors rows.now) self.now.start self.now.visits self.now.at
            self.now.looked }
        requires within { place < length self.now.visits }
        ensures { IfOk result (λ nodes.
            GoesAt (successors rows.now) self.now.start place nodes.items) }
    {
        let mut nodes = Vec::new(alloc);
        let mut at = place;
        while at > 0 {
            let visit = self.visits.at(at);
            nodes.push(visit.node)?;
            at = visit.from;
        }
        nodes.push(self.start)?;
        nodes.reverse();
        Ok(nodes)
    }
}
