//! Each public call over a build for which it has something to return.

use crate::builds::{Build, expect_answer};
use crate::calls::Call;
use std::alloc::Global;
use std::test::Fail;

/// A program of one object, whose source both recipes read. It is right.
const RIGHT: Build<'static> = Build {
    makefile: "p: a.o\n\tcc -o p a.o\na.o: a.c\n\tcc -c a.c\n",
    goals: "",
    footprints: r#"{"format":1,"fixed":[],"sources":["a.c"],"records":[
{"target":"p","commands":["cc -o p a.o"],"reads":["a.o","a.c"],"writes":["p"]},
{"target":"a.o","commands":["cc -c a.c"],"reads":["a.c"],"writes":["a.o"]}]}"#,
};

/// The certificate of `RIGHT`.
const CERTIFICATE: &str = concat!(
    r#"{"format":1,"goals":["p"],"ways":[{"end":"source","file":"a.c","path":["a.o"],"#,
    r#""recipe":"a.o"},{"end":"written","file":"a.o","path":["p","a.o"],"recipe":"p"},"#,
    r#"{"end":"source","file":"a.c","path":["p","a.o"],"recipe":"p"}]}"#,
);

/// The same with a path that lacks its last recipe.
const SHORT: &str = concat!(
    r#"{"format":1,"goals":["p"],"ways":[{"end":"source","file":"a.c","path":["a.o"],"#,
    r#""recipe":"a.o"},{"end":"written","file":"a.o","path":["p"],"recipe":"p"},"#,
    r#"{"end":"source","file":"a.c","path":["p","a.o"],"recipe":"p"}]}"#,
);

/// Two recipes that write one log.
const WRITERS: Build<'static> = Build {
    makefile: "b: a\n\tdo b\na:\n\tdo a\n",
    goals: "",
    footprints: r#"{"format":1,"fixed":[],"sources":[],"records":[
{"target":"a","commands":["do a"],"reads":[],"writes":["a","log"]},
{"target":"b","commands":["do b"],"reads":[],"writes":["b","log"]}]}"#,
};

/// A recipe that reads what another one writes, and a header, and depends on neither.
const RACE: Build<'static> = Build {
    makefile: "all: a b\na:\n\tmk a\nb:\n\tmk b\n",
    goals: "all",
    footprints: r#"{"format":1,"fixed":[],"sources":["h"],"records":[
{"target":"a","commands":["mk a"],"reads":[],"writes":["a"]},
{"target":"b","commands":["mk b"],"reads":["a","h"],"writes":["b"]}]}"#,
};

/// A recipe without a record, and one that reads a header that it doesn't depend on.
const HIDDEN: Build<'static> = Build {
    makefile: "p: a.o\n\tcc -o p a.o\na.o: a.c\n\tcc -c a.c\n",
    goals: "p",
    footprints: r#"{"format":1,"fixed":[],"sources":["a.c","h.h"],"records":[
{"target":"a.o","commands":["cc -c a.c"],"reads":["a.c","h.h"],"writes":["a.o"]}]}"#,
};

/// A recipe that reads two headers that it doesn't depend on, of which a makefile can't hold one.
const UNWRITABLE: Build<'static> = Build {
    makefile: "a.o: a.c\n\tcc -c a.c\n",
    goals: "",
    footprints: r#"{"format":1,"fixed":[],"sources":["a.c","h.h","h$.h"],"records":[
{"target":"a.o","commands":["cc -c a.c"],"reads":["a.c","h.h","h$.h"],"writes":["a.o"]}]}"#,
};

/// Two recipes that read each other's files, and a stale header.
const CYCLE: Build<'static> = Build {
    makefile: "all: a b a.o\na:\n\tmk a\nb:\n\tmk b\na.o: a.c\n\tcc -c a.c\n",
    goals: "all",
    footprints: r#"{"format":1,"fixed":[],"sources":["a.c","h.h"],"records":[
{"target":"a","commands":["mk a"],"reads":["b"],"writes":["a"]},
{"target":"b","commands":["mk b"],"reads":["a"],"writes":["b"]},
{"target":"a.o","commands":["cc -c a.c"],"reads":["a.c","h.h"],"writes":["a.o"]}]}"#,
};

/// A recipe that reads the makefile.
const READS_MAKEFILE: Build<'static> = Build {
    makefile: "all: a b\na:\n\tmk a\nb:\n\tmk b\n",
    goals: "all",
    footprints: r#"{"format":1,"fixed":[],"sources":[],"records":[
{"target":"a","commands":["mk a"],"reads":["makefile"],"writes":["a","log"]},
{"target":"b","commands":["mk b"],"reads":[],"writes":["b"]}]}"#,
};

#[test]
fn static_findings_need_no_order(rt: HostRuntime) -> Result<(), Fail> {
    let alloc = rt.alloc();
    expect_answer(alloc, &RIGHT, &Call::Static, "")?;
    expect_answer(alloc, &RACE, &Call::Static, "")?;
    expect_answer(alloc, &WRITERS, &Call::Static, "writers a b log\n")
}

#[test]
fn races_are_read_too_early(rt: HostRuntime) -> Result<(), Fail> {
    let alloc = rt.alloc();
    expect_answer(alloc, &RIGHT, &Call::Races, "")?;
    expect_answer(alloc, &RACE, &Call::Races, "race b a a\n")
}

#[test]
fn findings_are_all_of_them(rt: HostRuntime) -> Result<(), Fail> {
    let alloc = rt.alloc();
    expect_answer(alloc, &RIGHT, &Call::Findings, "")?;
    expect_answer(alloc, &WRITERS, &Call::Findings, "writers a b log\n")?;
    let found = "race b a a\nstale b a\nstale b h\n";
    expect_answer(alloc, &RACE, &Call::Findings, found)
}

#[test]
fn counts_recipes_and_reads(rt: HostRuntime) -> Result<(), Fail> {
    expect_answer(rt.alloc(), &RIGHT, &Call::Counts, "2 recipes 3 reads")
}

#[test]
fn certifies_what_has_no_findings(rt: HostRuntime) -> Result<(), Fail> {
    let alloc = rt.alloc();
    expect_answer(alloc, &RIGHT, &Call::Certify, CERTIFICATE)?;
    expect_answer(alloc, &RIGHT, &Call::Judge, CERTIFICATE)?;
    expect_answer(alloc, &WRITERS, &Call::Judge, "writers a b log\n")
}

/// A certificate of these goals without entries.
fn without_entries(alloc: Global, goals: &str) -> Result<String, Fail> {
    Ok(format!(in alloc; "{{\"format\":1,\"goals\":[{goals}],\"ways\":[]}}")?)
}

#[test]
fn verifies_certificates(rt: HostRuntime) -> Result<(), Fail> {
    let alloc = rt.alloc();
    expect_answer(alloc, &RIGHT, &Call::Verify(CERTIFICATE), "accepted")?;
    let other = without_entries(alloc, "\"a.o\"")?;
    expect_answer(alloc, &RIGHT, &Call::Verify(other.as_str()), "73")?;
    let empty = without_entries(alloc, "\"p\"")?;
    expect_answer(alloc, &RIGHT, &Call::Verify(empty.as_str()), "74 a.o a.c")?;
    expect_answer(alloc, &RIGHT, &Call::Verify(SHORT), "75 p a.o")?;
    let empty = without_entries(alloc, "\"all\"")?;
    expect_answer(alloc, &RACE, &Call::Verify(empty.as_str()), "76 race b a a")
}

#[test]
fn words_mend_what_lacks(rt: HostRuntime) -> Result<(), Fail> {
    let alloc = rt.alloc();
    expect_answer(alloc, &RACE, &Call::Lines, "b: a h\n")?;
    expect_answer(alloc, &WRITERS, &Call::Lines, "none")
}

#[test]
fn one_finding_stops_a_repair(rt: HostRuntime) -> Result<(), Fail> {
    let alloc = rt.alloc();
    let why = "no line mends `no writers a b log`: two recipes write one file\n";
    expect_answer(alloc, &WRITERS, &Call::Obstacle, why)?;
    let why = "no line mends `no stale a.o h$.h`: a makefile can't hold its names\na.o: h.h\n";
    expect_answer(alloc, &UNWRITABLE, &Call::Obstacle, why)
}

#[test]
fn lines_on_a_cycle_are_taken_back(rt: HostRuntime) -> Result<(), Fail> {
    let alloc = rt.alloc();
    expect_answer(alloc, &RACE, &Call::Offers, "b: a h\n")?;
    expect_answer(alloc, &HIDDEN, &Call::Offers, "a.o: h.h\n")?;
    expect_answer(alloc, &CYCLE, &Call::Offers, "a.o: h.h\n")
}

/// The findings of `HIDDEN` in sentences, and what is hidden behind the first.
const SENTENCES: &str = "\
makefile:1: p has no record, so nothing is known of what its recipe reads and writes [record]
  do: record again, with the goals and macros that are checked
1 finding in 1 group; no line mends it
once these are mended, as far as can be seen now:
makefile:3: a.o reads h.h, but doesn't depend on it: when it changes, a.o stays old [stale]
  add: a.o: h.h
1 finding in 1 group; 1 line mends it
";

#[test]
fn sentences_tell_findings(rt: HostRuntime) -> Result<(), Fail> {
    expect_answer(rt.alloc(), &HIDDEN, &Call::Sentences, SENTENCES)
}

#[test]
fn an_old_build_owns_what_it_writes(rt: HostRuntime) -> Result<(), Fail> {
    expect_answer(rt.alloc(), &RIGHT, &Call::Owns("a.o"), "owned")?;
    expect_answer(rt.alloc(), &RIGHT, &Call::Owns("a.c"), "owned")?;
    expect_answer(rt.alloc(), &RIGHT, &Call::Owns("makefile"), "owned")?;
    expect_answer(rt.alloc(), &RIGHT, &Call::Owns("h.h"), "not owned")
}

#[test]
fn names_what_read_the_makefile(rt: HostRuntime) -> Result<(), Fail> {
    expect_answer(rt.alloc(), &RIGHT, &Call::Named, "")?;
    expect_answer(rt.alloc(), &READS_MAKEFILE, &Call::Named, "a\nlog\n")
}
