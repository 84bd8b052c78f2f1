//! Which files `since` names for small programs, over files in memory.

use crate::requests::{MAKEFILE, RIGHT, STALE, request, same};
use mk_core::{MemFiles, fault_text};
use mk_core_since::{Change, Since, name_below, since, since_message, since_output};
use std::alloc::{AllocError, Global};
use std::str;
use std::test::Fail;

/// The program with another command for its object.
const OTHER: &str = "p: a.o\n\tcc -o p a.o\na.o: a.c\n\tcc -O -c a.c\n";

/// Its footprints.
const OTHER_RIGHT: &str = r#"{"format":1,"fixed":[],"sources":["a.c"],"records":[
{"target":"p","commands":["cc -o p a.o"],"reads":["a.o"],"writes":["p"]},
{"target":"a.o","commands":["cc -O -c a.c"],"reads":["a.c"],"writes":["a.o"]}]}"#;

/// The files of a build, with its footprints in this file.
fn files_of(alloc: Global, makefile: &str, book: &str, text: &str) -> Result<MemFiles, AllocError> {
    let mut files = MemFiles::new(alloc);
    files.add("makefile", makefile.as_bytes())?;
    files.add(book, text.as_bytes())?;
    Ok(files)
}

/// What both streams get, the error stream last.
fn shown(alloc: Global, found: &Since) -> Result<Vec<u8>, AllocError> {
    let mut text = since_output(alloc, found)?;
    text.extend_from_slice(&since_message(alloc, found, "old", None)?)?;
    Ok(text)
}

/// Checks what is printed after a change from the build in this folder to the second program.
fn expect_from(alloc: Global, old: &mut MemFiles, want: &str) -> Result<(), Fail> {
    let mut new = files_of(alloc, OTHER, "B", OTHER_RIGHT)?;
    let asked = request(alloc, &[])?;
    let change = Change {
        request: &asked,
        folder: "old",
    };
    let text = match since(alloc, old, &mut new, &change, false) {
        Ok(found) => shown(alloc, &found)?,
        Err(fault) => fault_text(alloc, &fault)?,
    };
    same(str::from_utf8(&text).unwrap_or(""), want)
}

/// Checks what is printed after a change from the first program, with these footprints, to the
/// second.
fn expect(alloc: Global, footprints: &str, want: &str) -> Result<(), Fail> {
    let mut old = files_of(alloc, MAKEFILE, "footprint.json", footprints)?;
    expect_from(alloc, &mut old, want)
}

#[test]
fn names_what_has_other_commands(rt: HostRuntime) -> Result<(), Fail> {
    expect(rt.alloc(), RIGHT, "a.o\n")
}

#[test]
fn names_what_doubted_recipes_wrote(rt: HostRuntime) -> Result<(), Fail> {
    expect(rt.alloc(), STALE, "a.o\np\n")
}

#[test]
fn tells_of_an_old_build_with_other_findings(rt: HostRuntime) -> Result<(), Fail> {
    let want = "no commands a.o\nthis is the old build, in old: begin with a clean build\n";
    expect(rt.alloc(), OTHER_RIGHT, want)
}

/// What `check -w` says of the program with a header that its makefile doesn't name.
const SENTENCES: &str = "\
makefile:3: a.o reads h.h, but doesn't depend on it: when it changes, a.o stays old [stale]
  add: a.o: h.h
1 finding in 1 group; 1 line mends it
";

#[test]
fn tells_findings_of_the_new_build_in_sentences(rt: HostRuntime) -> Result<(), Fail> {
    let alloc = rt.alloc();
    let mut old = files_of(alloc, MAKEFILE, "footprint.json", RIGHT)?;
    let mut new = files_of(alloc, MAKEFILE, "B", STALE)?;
    let asked = request(alloc, &[])?;
    let change = Change {
        request: &asked,
        folder: "old",
    };
    match since(alloc, &mut old, &mut new, &change, true) {
        Ok(Since::No(_, text)) => same(str::from_utf8(&text).unwrap_or(""), SENTENCES),
        _ => same("", SENTENCES),
    }
}

#[test]
fn refuses_an_old_build_without_footprints(rt: HostRuntime) -> Result<(), Fail> {
    let want = "refused 51\nthis is the old build, in old: begin with a clean build\n";
    expect(rt.alloc(), "", want)
}

#[test]
fn reads_the_makefile_that_the_options_name(rt: HostRuntime) -> Result<(), Fail> {
    let alloc = rt.alloc();
    let mut old = files_of(alloc, "p: none\n", "footprint.json", RIGHT)?;
    old.add("old.mk", MAKEFILE.as_bytes())?;
    old.add("options", "-f\nold.mk\n".as_bytes())?;
    expect_from(alloc, &mut old, "a.o\n")
}

#[test]
fn names_files_below_a_folder(rt: HostRuntime) -> Result<(), Fail> {
    same(name_below(rt.alloc(), "old", "a")?.as_str(), "old/a")?;
    same(name_below(rt.alloc(), "old/", "a")?.as_str(), "old/a")
}
