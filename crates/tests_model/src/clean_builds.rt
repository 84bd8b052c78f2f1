//! A plain implementation of clean builds, tested on builds whose results were derived by hand.

use crate::graph_fixtures::{graph_of, see_that};
use mk_graph::Graph;
use std::alloc::{AllocError, Global};
use std::process::Abort;
use std::test::Fail;

/// What a recipe reads and writes.
#[derive(Drop)]
struct Footprint<'a> {
    target: &'a str,
    reads: &'a [&'a str],
    writes: &'a [&'a str],
}

/// What a recipe wrote after it read this.
#[derive(Drop)]
struct Outcome<'a> {
    target: &'a str,
    seen: &'a [Option<u64>],
    written: &'a [u64],
}

/// The content of a file. The last entry for the file counts.
fn content(files: &[(&str, u64)], name: &str) -> Option<u64> {
    let mut found = None;
    for (file, number) in files {
        if *file == name {
            found = Some(*number);
        }
    }
    found
}

/// Whether the files have the contents that were seen.
fn hold(files: &[(&str, u64)], names: &[&str], seen: &[Option<u64>]) -> bool {
    for (name, one) in names.iter().zip(seen) {
        if content(files, name) != *one {
            return false;
        }
    }
    names.len() == seen.len()
}

/// The footprint of a target.
fn footprint_of<'a, 'b>(
    footprints: &'b [Footprint<'a>],
    target: &str,
) -> Option<&'b Footprint<'a>> {
    for footprint in footprints {
        if footprint.target == target {
            return Some(footprint);
        }
    }
    None
}

/// The outcome of a recipe that reads these files.
fn written_by<'a, 'b>(
    outcomes: &'b [Outcome<'a>],
    footprint: &Footprint<'_>,
    files: &[(&str, u64)],
) -> Option<&'b Outcome<'a>> {
    for outcome in outcomes {
        if outcome.target == footprint.target && hold(files, footprint.reads, outcome.seen) {
            return Some(outcome);
        }
    }
    None
}

/// Writes contents into files.
fn put<'a>(
    files: &mut Vec<(&'a str, u64)>,
    names: &[&'a str],
    numbers: &[u64],
) -> Result<(), AllocError> {
    for (name, number) in names.iter().zip(numbers) {
        files.push((*name, *number))?;
    }
    Ok(())
}

/// The contents of files after every recipe of the serial order has run once, in order, from these
/// files alone. `None` if an outcome is missing.
fn clean_build<'a>(
    alloc: Global,
    graph: &Graph,
    footprints: &[Footprint<'a>],
    outcomes: &[Outcome<'_>],
    given: &[(&'a str, u64)],
) -> Result<Option<Vec<(&'a str, u64)>>, AllocError> {
    let mut files = Vec::from_slice(alloc, given)?;
    for number in &graph.serial()? {
        let Some(node) = graph.nodes().get(*number) else {
            continue;
        };
        let Some(footprint) = footprint_of(footprints, node.name.as_str()) else {
            continue;
        };
        let Some(outcome) = written_by(outcomes, footprint, files.as_slice()) else {
            return Ok(None);
        };
        put(&mut files, footprint.writes, outcome.written)?;
    }
    Ok(Some(files))
}

/// The footprints of a build: `p` is made from `a.o` and `a.c`, and `a.o` from `a.c`.
const FOOTPRINTS: &[Footprint<'static>] = &[
    Footprint {
        target: "p",
        reads: &["a.o", "a.c"],
        writes: &["p"],
    },
    Footprint {
        target: "a.o",
        reads: &["a.c"],
        writes: &["a.o"],
    },
];

/// Its outcomes.
const OUTCOMES: &[Outcome<'static>] = &[
    Outcome {
        target: "a.o",
        seen: &[Some(1)],
        written: &[7],
    },
    Outcome {
        target: "p",
        seen: &[Some(7), Some(1)],
        written: &[9],
    },
    Outcome {
        target: "a.o",
        seen: &[Some(2)],
        written: &[7],
    },
];

/// The content of `a.c`, a file, and that file's content after a clean build. There is no outcome
/// of `p` for the content 2.
const CONTENTS: &[(u64, &str, Option<u64>)] = &[
    (1, "a.o", Some(7)),
    (1, "p", Some(9)),
    (1, "a.h", None),
    (2, "a.o", None),
];

/// The content of a file after the clean build with this content of `a.c`.
fn content_after(
    alloc: Global,
    graph: &Graph,
    source: u64,
    name: &str,
) -> Result<Option<u64>, AllocError> {
    match clean_build(alloc, graph, FOOTPRINTS, OUTCOMES, &[("a.c", source)])? {
        Some(files) => Ok(content(files.as_slice(), name)),
        None => Ok(None),
    }
}

/// Asserts the contents of files after clean builds.
fn see_contents(rt: &impl Abort, alloc: Global, graph: &Graph) -> Result<(), AllocError> {
    for &(source, name, want) in CONTENTS {
        see_that(rt, content_after(alloc, graph, source, name)? == want, name);
    }
    Ok(())
}

#[test]
fn clean_build_of_a_program(rt: HostRuntime) -> Result<(), Fail> {
    let graph = graph_of(&rt, rt.alloc(), "p!:1 a.o!:2 a.c!")?;
    see_contents(&rt, rt.alloc(), &graph)?;
    Ok(())
}
