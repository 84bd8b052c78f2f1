//! Which nodes happen before a given one.

ghost use Rattle.std.specs.Prelude.{◌≡◌, true, ◌↔◌, IfOk, IfSome};
ghost use Rattle.mk_graph.specs.Graph.{prerequisites};
ghost use Rattle.mk_graph.specs.Membership.{Has};
ghost use Rattle.mk_graph.specs.Schedules.{Before};

use mk_graph::{BitRows, Graph, NodeSet, Without};
use mk_subject::NumberList;
use std::alloc::{AllocError, Global};
use std::marker::Model;

/// Answers which nodes happen before the current node, for one current node after another. Its
/// model is the graph and the current node.
///
/// Most queries ask for direct prerequisites, which always happen before; these are looked up in a
/// list. The first query for any other node computes the set of nodes that this one happens before.
/// The first query for a second such node computes the order of the whole graph as a bit matrix.
/// The answers for the current node are cached.
#[derive(Drop)]
pub(crate) struct HappensBefore<'a> {
    graph: &'a Graph,
    number: usize,
    direct: Option<NumberList<'a>>,
    first: Option<Without<'a>>,
    /// Whether the node of `first` happens before the current node, once that was queried.
    is_told: Option<bool>,
    rows: Option<BitRows<'a>>,
    /// The nodes that happen before the current node, by `rows`.
    before: Option<NodeSet>,
}

impl<'a> Model for HappensBefore<'a> {
    ghost use Rattle.mk_find.specs.HappensBefore as value;
    ghost use Rattle.mk_find.specs.HappensBefore.{AreBefore, AreDirect, RowsAreOf, IsFirstOf, IsToldOf};

    ghost Value = { value.NodeInGraph };

    ghost view = { λ e. record { graph = e.graph.now; number = e.number } };

    ghost invariant = { λ e. AreDirect e.graph.now e.number e.direct ×
        IsFirstOf e.graph.now e.first × IsToldOf e.number e.first e.is_told ×
        RowsAreOf e.graph.now e.rows × AreBefore e.graph.now e.number e.before };
}

impl<'a> HappensBefore<'a> {
    /// Starts at the node with number 0, with nothing computed.
    pub fn new(graph: &'a Graph) -> HappensBefore<'a>
        ensures { result.graph ≡ graph.now }
    {
        HappensBefore {
            graph,
            number: 0,
            direct: None,
            first: None,
            is_told: None,
            rows: None,
            before: None,
        }
    }

    /// Makes `number` the current node. Takes time linear in its prerequisites. The only error is
    /// out of memory, after which `number` is the current node all the same.
    pub fn turn_to(&mut self, alloc: Global, number: usize) -> Result<(), AllocError>
        ensures graph { self.new.graph ≡ self.old.graph }
        ensures number { self.new.number ≡ number }
    {
        if self.number == number && self.direct.is_some() {
            return Ok(());
        }
        let graph = self.graph;
        graph.nodes();
        self.number = number;
        self.is_told = None;
        self.before = None;
        self.direct = None;
        self.direct = Some(NumberList::new(alloc, graph.prerequisites(number))?);
        Ok(())
    }

    /// Whether `other` is a known direct prerequisite of the current node.
    fn lists(&self, other: usize) -> bool
        ensures { result ≡ true → Has (prerequisites self.now.graph self.now.number) other }
    {
        match &self.direct {
            Some(direct) => direct.has(other),
            None => false,
        }
    }

    /// Whether `other` happens before the current node; `None` if `other` isn't the node of
    /// `first`.
    fn told_by_first(&mut self, other: usize) -> Option<bool>
        ensures same { self.new ≡ self.old }
        ensures before { IfSome result (λ is. (is ≡ true) ↔
            Before self.old.graph other self.old.number) }
    {
        let Some(first) = &self.first else {
            return None;
        };
        if first.other() != other {
            return None;
        }
        let is = match self.is_told {
            Some(is) => is,
            None => first.is_before(self.number),
        };
        self.is_told = Some(is);
        Some(is)
    }

    /// Computes which nodes `other` happens before, on the first call only.
    fn ask_first(&mut self, other: usize)
        ensures { self.new ≡ self.old }
    {
        if self.first.is_none() {
            self.first = Some(Without::new(self.graph, other));
        }
    }

    /// Whether `other` happens before the current node, by the bit matrix. The only error is out of
    /// memory.
    fn told_by_rows(&mut self, alloc: Global, other: usize) -> Result<bool, AllocError>
        ensures same { self.new ≡ self.old }
        ensures before { IfOk result (λ is. (is ≡ true) ↔
            Before self.old.graph other self.old.number) }
    {
        if let Some(before) = &self.before {
            return Ok(before.has(other));
        }
        let rows = match self.rows.take() {
            Some(rows) => rows,
            None => BitRows::new(alloc, self.graph)?,
        };
        let before = rows.predecessors(self.number);
        self.rows = Some(rows);
        let is = match &before {
            Some(before) => before.has(other),
            None => true,
        };
        self.before = before;
        Ok(is)
    }

    /// Whether `other` happens before the current node. The only error is out of memory.
    pub fn has(&mut self, alloc: Global, other: usize) -> Result<bool, AllocError>
        ensures same { self.new ≡ self.old }
        ensures before { IfOk result (λ is. (is ≡ true) ↔
            Before self.old.graph other self.old.number) }
    {
        if self.lists(other) {
            return Ok(true);
        }
        self.ask_first(other);
        match self.told_by_first(other) {
            Some(is) => Ok(is),
            None => self.told_by_rows(alloc, other),
        }
    }
}
