//! Tables of searches for first ways: a row of successors for each node, and the ways by place.

use crate::graph_fixtures::{digits, same, see_that};
use mk_graph::Groups;
use mk_graph_search::Search;
use std::alloc::{AllocError, Global};
use std::process::Abort;
use std::test::Fail;

/// The rows of a text: those of nodes 0, 1, .. separated by bars, with a digit for each successor.
fn rows_of(alloc: Global, text: &str) -> Result<Groups, AllocError> {
    let mut rows = Vec::new(alloc);
    for part in text.split('|') {
        rows.push(digits(alloc, part)?)?;
    }
    Ok(Groups::new(rows))
}

/// Appends numbers, and a bar after them.
fn push_way(alloc: Global, text: &mut String, nodes: &[usize]) -> Result<(), AllocError> {
    for node in nodes {
        let digits = format!(in alloc; "{node}")?;
        text.push_str(digits.as_str())?;
    }
    text.push('|')
}

/// The ways at the places below a bound, each from the start to its end, with a bar after each.
fn ways_of(alloc: Global, search: &mut Search<'_>, bound: usize) -> Result<String, AllocError> {
    let mut text = String::new(alloc);
    for place in 0..bound {
        match search.way(alloc, place)? {
            Some(nodes) => push_way(alloc, &mut text, &nodes)?,
            None => break,
        }
    }
    Ok(text)
}

/// The start of a search, its rows, and the ways by place.
const WAYS: &[(usize, &str, &str)] = &[
    (0, "12|3|3|", "0|01|02|013|"),
    (0, "212|3|3|", "0|02|01|023|"),
    (0, "13|2|3|", "0|01|03|012|"),
    (0, "12|4|3|5|5|", "0|01|02|014|023|0145|"),
    (0, "12|34|4||", "0|01|02|013|014|"),
    (0, "1|2|0", "0|01|012|"),
    (2, "1|2|0", "2|20|201|"),
    (1, "0||", "1|"),
    (7, "0||", "7|"),
];

/// Asserts the ways of a search.
fn see_ways(
    rt: &impl Abort,
    alloc: Global,
    rows: &Groups,
    start: usize,
    want: &str,
) -> Result<(), AllocError> {
    let mut search = Search::new(alloc, rows, start)?;
    let got = ways_of(alloc, &mut search, 10);
    drop(search);
    same(rt, got?.as_str(), want, want);
    Ok(())
}

#[test]
fn ways_by_place(rt: HostRuntime) -> Result<(), Fail> {
    for &(start, text, ways) in WAYS {
        let rows = rows_of(rt.alloc(), text)?;
        see_ways(&rt, rt.alloc(), &rows, start, ways)?;
    }
    Ok(())
}

/// Places, and the ends of the ways there.
const ENDS: &[(usize, Option<usize>)] = &[
    (0, Some(0)),
    (3, Some(3)),
    (1, Some(2)),
    (4, Some(4)),
    (5, None),
];

/// Asserts the ends of the ways of a search.
fn see_ends(rt: &impl Abort, search: &mut Search<'_>) -> Result<(), AllocError> {
    for &(place, want) in ENDS {
        see_that(rt, search.visit(place)? == want, "an end");
    }
    Ok(())
}

#[test]
fn ends_by_place(rt: HostRuntime) -> Result<(), Fail> {
    let rows = rows_of(rt.alloc(), "21|3|34||0")?;
    let mut search = Search::new(rt.alloc(), &rows, 0)?;
    let seen = see_ends(&rt, &mut search);
    drop(search);
    Ok(seen?)
}

/// Ends, and the places of their first ways.
const PLACES: &[(usize, Option<usize>)] = &[(4, Some(4)), (0, Some(0)), (2, Some(1)), (5, None)];

/// Asserts the places of the ways of a search.
fn see_places(rt: &impl Abort, search: &mut Search<'_>) -> Result<(), AllocError> {
    for &(end, want) in PLACES {
        see_that(rt, search.place_of(end)? == want, "a place");
    }
    Ok(())
}

#[test]
fn places_by_end(rt: HostRuntime) -> Result<(), Fail> {
    let rows = rows_of(rt.alloc(), "21|3|34||0|0")?;
    let mut search = Search::new(rt.alloc(), &rows, 0)?;
    let seen = see_places(&rt, &mut search);
    drop(search);
    Ok(seen?)
}

/// Nodes, and the least places of the ways there, once a search has come to place 3.
const LEAST_PLACES: &[(usize, usize)] = &[(0, 0), (1, 2), (3, 3), (5, 5)];

/// Asserts the least places that a search tells.
fn see_least_places(rt: &impl Abort, search: &Search<'_>) {
    for &(node, want) in LEAST_PLACES {
        see_that(rt, search.least_place_of(node) == want, "a least place");
    }
}

#[test]
fn least_places(rt: HostRuntime) -> Result<(), Fail> {
    let rows = rows_of(rt.alloc(), "21|3|34||0|0")?;
    let mut search = Search::new(rt.alloc(), &rows, 0)?;
    see_that(&rt, search.least_place_of(3) == 1, "a least place");
    let came = search.visit(3);
    see_least_places(&rt, &search);
    drop(search);
    came?;
    Ok(())
}
