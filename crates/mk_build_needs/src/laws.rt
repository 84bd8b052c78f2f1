//! Laws of what nodes need. Each is the contract of a function that does nothing; calling the
//! function gives the law.

ghost use Rattle.mk_build_needs.specs.Laws.{NeedsAreThese, AmendedExtends, CycleCannotBeMended, FirstCycleCannotBeMended, NoCycleIsMissed, RowsGiveNeeds};

use mk_graph::laws::{
    closes_only_cycles, comes_through_without_cycles, order_of_all_goals, serial_reaches_each_once,
};
use mk_graph::schedule_laws::serial_order_is_a_schedule;

/// The list of a node's needs has exactly the nodes that it needs.
pub fn needs_are_these()
    ensures { NeedsAreThese }
{
    serial_reaches_each_once();
}

/// A graph with more prerequisites, nodes and phony nodes and with other goals extends the graph.
pub fn amended_extends()
    ensures { AmendedExtends }
{}

/// If a path of needs leads from a node to itself, then no graph that has all nodes, recipes and
/// prerequisites of this one has sound footprints and no race.
pub fn cycle_cannot_be_mended()
    ensures { CycleCannotBeMended }
{
    needs_are_these();
    serial_reaches_each_once();
    order_of_all_goals();
    serial_order_is_a_schedule();
}

/// If needs have a first cycle, then no graph that has all nodes, recipes and prerequisites of this
/// one has sound footprints and no race.
pub fn first_cycle_cannot_be_mended()
    ensures { FirstCycleCannotBeMended }
{
    cycle_cannot_be_mended();
    closes_only_cycles();
}

/// If needs have no first cycle, then no path of needs leads from a node to itself.
pub fn no_cycle_is_missed()
    ensures { NoCycleIsMissed }
{
    needs_are_these();
    comes_through_without_cycles();
}

/// Rows that hold what each node needs beside its direct prerequisites give the graph of needs.
pub fn rows_give_needs()
    ensures { RowsGiveNeeds }
{}
