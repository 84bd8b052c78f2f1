//! Graphs, serial orders and cycles, by name.

use crate::graph_fixtures::{
    built, chain, graph_of, greatest_chain, node, same, same_number, see_that,
};
use mk_graph::{Graph, GraphFault};
use std::alloc::{AllocError, Global};
use std::process::Abort;
use std::test::Fail;

/// The names in serial order, each followed by a blank.
fn serial_names(alloc: Global, graph: &Graph) -> Result<String, AllocError> {
    let mut text = String::new(alloc);
    for number in &graph.serial()? {
        if let Some(node) = graph.nodes().get(*number) {
            text.push_str(node.name.as_str())?;
            text.push(' ')?;
        }
    }
    Ok(text)
}

/// The names along the closed path, each followed by a blank.
fn cycle_names(alloc: Global, refused: Result<Graph, GraphFault>) -> Result<String, GraphFault> {
    let mut text = String::new(alloc);
    match refused {
        Ok(_graph) => text.push_str("no path")?,
        Err(GraphFault::Cycle(names)) => {
            for name in names.as_slice() {
                text.push_str(name.as_str())?;
                text.push(' ')?;
            }
        }
        Err(fault) => return Err(fault),
    }
    Ok(text)
}

/// Asserts the serial order, goals and nodes of a graph.
fn see_program(rt: &impl Abort, alloc: Global, graph: &Graph) -> Result<(), AllocError> {
    let names = serial_names(alloc, graph)?;
    same(rt, names.as_str(), "a.c a.o p ", "a program");
    see_that(rt, graph.goals() == [0].as_slice(), "goals");
    same_number(rt, graph.nodes().len(), 3, "nodes");
    Ok(())
}

#[test]
fn prerequisites_stand_first(rt: HostRuntime) -> Result<(), Fail> {
    let graph = graph_of(&rt, rt.alloc(), "p!:1 a.o!:2 a.c!")?;
    see_program(&rt, rt.alloc(), &graph)?;
    Ok(())
}

/// A graph, and its first closed path: one with nodes before it, and one of a single node.
const CYCLES: &[(&str, &str)] = &[("a!:1|2 b! c!:3 d!:20", "c d c "), ("a!:0", "a a ")];

#[test]
fn first_closed_path(rt: HostRuntime) -> Result<(), Fail> {
    for &(rows, want) in CYCLES {
        let refused = graph_of(&rt, rt.alloc(), rows);
        let names = cycle_names(rt.alloc(), refused)?;
        same(&rt, names.as_str(), want, rows);
    }
    Ok(())
}

/// Asserts that a graph is empty.
fn see_nothing(rt: &impl Abort, graph: &Graph) -> Result<(), AllocError> {
    see_that(rt, graph.nodes().is_empty(), "no nodes");
    see_that(rt, graph.goals().is_empty(), "no goals");
    see_that(rt, graph.serial()?.is_empty(), "no order");
    Ok(())
}

#[test]
fn nothing(rt: HostRuntime) -> Result<(), Fail> {
    let graph = built(&rt, rt.alloc(), Vec::new(rt.alloc()), &[])?;
    see_nothing(&rt, &graph)?;
    Ok(())
}

/// Asserts the serial order of the longest chain.
fn see_chain(rt: &impl Abort, order: &[usize]) {
    same_number(rt, order.len(), 4096, "nodes");
    see_that(rt, order.first().copied() == Some(4095), "the first one");
    see_that(rt, order.last().copied() == Some(0), "the last one");
}

#[test]
fn order_of_the_greatest_chain(rt: HostRuntime) -> Result<(), Fail> {
    let graph = greatest_chain(&rt, rt.alloc())?;
    let order = graph.serial()?;
    see_chain(&rt, &order);
    Ok(())
}

#[test]
fn one_node_too_many(rt: HostRuntime) -> Result<(), Fail> {
    match built(&rt, rt.alloc(), chain(rt.alloc(), 4097)?, &[0]) {
        Err(GraphFault::TooManyNodes) => Ok(()),
        Err(fault) => Err(fault.into()),
        Ok(_graph) => Err("4,097 nodes are a graph".into()),
    }
}

#[test]
fn groups_stay(rt: HostRuntime) -> Result<(), Fail> {
    let one = node(rt.alloc(), "a", &[&[1, 2], &[3]])?;
    same_number(&rt, one.groups.as_slice().len(), 2, "groups");
    Ok(())
}
