//! Tests of mk_cert_text: lists of names that share one text.

use crate::expecting::{same, same_number};
use mk_cert_text::PackedNames;
use std::alloc::{AllocError, Global};
use std::process::Abort;
use std::test::Fail;

/// Names of one byte and more, with letters of several bytes, and the empty name.
const SOME: [&str; 7] = ["a", "", "b.c", "", "é", "/ü/日本", "a"];

/// Packs these names.
fn packed(alloc: Global, names: &[&str]) -> Result<PackedNames, AllocError> {
    let mut packed = PackedNames::new(alloc);
    for name in names {
        packed.push(name)?;
    }
    Ok(packed)
}

/// Checks that the list has these names, in order.
fn see(rt: &impl Abort, packed: &PackedNames, want: &[&str]) {
    same_number(rt, packed.len(), want.len(), "names");
    for (place, name) in want.iter().enumerate() {
        same(rt, packed.at(place), name, name);
    }
}

#[test]
fn no_names(rt: HostRuntime) -> Result<(), Fail> {
    let mut names = PackedNames::new(rt.alloc());
    see(&rt, &names, &[]);
    names.clear();
    see(&rt, &names, &[]);
    Ok(())
}

#[test]
fn one_name(rt: HostRuntime) -> Result<(), Fail> {
    let names = packed(rt.alloc(), &["src/a.c"])?;
    see(&rt, &names, &["src/a.c"]);
    see(&rt, &packed(rt.alloc(), &[""])?, &[""]);
    Ok(())
}

/// The names of `SOME`, and one more after them.
const EIGHT: [&str; 8] = ["a", "", "b.c", "", "é", "/ü/日本", "a", "last"];

#[test]
fn some_names_in_order(rt: HostRuntime) -> Result<(), Fail> {
    let mut names = packed(rt.alloc(), &SOME)?;
    see(&rt, &names, &SOME);
    names.push("last")?;
    see(&rt, &names, &EIGHT);
    Ok(())
}

/// `x`, and the names of `SOME` after it.
const BEHIND: [&str; 8] = ["x", "a", "", "b.c", "", "é", "/ü/日本", "a"];

/// Appends names after `x`, and checks them all.
fn see_behind(
    rt: &impl Abort,
    names: &mut PackedNames,
    others: &PackedNames,
) -> Result<(), AllocError> {
    names.push_all(others)?;
    see(rt, names, &BEHIND);
    names.clear();
    see(rt, names, &[]);
    names.push("é")?;
    see(rt, names, &["é"]);
    Ok(())
}

#[test]
fn names_behind_others(rt: HostRuntime) -> Result<(), Fail> {
    let mut names = packed(rt.alloc(), &["x"])?;
    let others = packed(rt.alloc(), &SOME)?;
    see_behind(&rt, &mut names, &others)?;
    Ok(())
}

/// Packs this many names, each of which is a number.
fn numbered(alloc: Global, count: u32) -> Result<PackedNames, AllocError> {
    let mut names = PackedNames::with_capacity(alloc, 10, 30)?;
    for number in 0..count {
        names.push(format!(in alloc; "n{number}")?.as_str())?;
    }
    Ok(names)
}

/// Checks some of 3,000 numbered names.
fn see_numbered(rt: &impl Abort, alloc: Global, names: &PackedNames) -> Result<(), AllocError> {
    same_number(rt, names.len(), 3000, "names");
    for place in [0, 1, 9, 10, 99, 100, 1234, 2999usize] {
        let want = format!(in alloc; "n{place}")?;
        same(rt, names.at(place), want.as_str(), "names by number");
    }
    Ok(())
}

#[test]
fn many_names(rt: HostRuntime) -> Result<(), Fail> {
    let names = numbered(rt.alloc(), 3000)?;
    see_numbered(&rt, rt.alloc(), &names)?;
    Ok(())
}
