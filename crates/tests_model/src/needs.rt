//! First cycles of needs, by name.

use crate::graph_fixtures::{are_rows, graph_of, groups_of, same};
use mk_build_needs::first_cycle;
use mk_graph::{Graph, GraphFault};
use std::alloc::{AllocError, Global};
use std::process::Abort;
use std::test::Fail;

/// A graph, a row of further needs for each node, and the first cycle: two recipes that read each
/// other's file, a file that its writer waits for, a cycle that the walk closes before another one,
/// needs without a cycle, and no further needs.
const CYCLES: &[(&str, &str, &str)] = &[
    ("p!:12 a!:3 b!:3 c", "|2|1|", "a b a "),
    ("p!:1 a!:2 c", "||0", "p a c p "),
    ("p!:12 a!:3 b!:4 c! d!", "0|4|||2", "d b d "),
    ("p!:12 a!:3 b! c", "|2||", ""),
    ("p!:1 a!", "|", ""),
];

/// The names along the first cycle, each followed by a blank.
fn cycle_names(
    rt: &impl Abort,
    alloc: Global,
    graph: &Graph,
    more: &[Vec<usize>],
) -> Result<String, AllocError> {
    assert!(rt; more.len() == graph.nodes().len() && are_rows(more));
    let mut text = String::new(alloc);
    if let Some(names) = first_cycle(alloc, graph, more)? {
        for name in names.as_slice() {
            text.push_str(name.as_str())?;
            text.push(' ')?;
        }
    }
    Ok(text)
}

/// The names along the first cycle of a row of the table.
fn cycle_of(rt: &impl Abort, alloc: Global, rows: &str, more: &str) -> Result<String, GraphFault> {
    let graph = graph_of(rt, alloc, rows)?;
    let more = groups_of(alloc, more)?;
    Ok(cycle_names(rt, alloc, &graph, &more)?)
}

#[test]
fn first_cycles(rt: HostRuntime) -> Result<(), Fail> {
    for &(rows, more, want) in CYCLES {
        let names = cycle_of(&rt, rt.alloc(), rows, more)?;
        same(&rt, names.as_str(), want, rows);
    }
    Ok(())
}
