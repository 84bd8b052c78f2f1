//! What each public call gives for a small program.

use crate::requests::{Call, RIGHT, STALE, answer, files, request, same};
use mk_core::Request;
use std::alloc::Global;
use std::process::Abort;
use std::test::Fail;

/// Checks what a call gives for the program with these footprints.
fn expect(alloc: Global, footprints: &str, call: Call, want: &str) -> Result<(), Fail> {
    let asked = request(alloc, &[])?;
    let got = answer(alloc, &mut files(alloc, footprints)?, &asked, call)?;
    same(got.as_str(), want)
}

#[test]
fn prints_the_graph(rt: HostRuntime) -> Result<(), Fail> {
    let graph = "goals p\na.c:\na.o recipe: a.c\np recipe: a.o\n";
    expect(rt.alloc(), RIGHT, Call::Graph, graph)
}

/// The verdict of the program without its header.
const YES: &str = "yes 2 recipes 2 reads\nway a.o a.c source a.o\nway p a.o written p a.o\n";

#[test]
fn judges_a_build(rt: HostRuntime) -> Result<(), Fail> {
    expect(rt.alloc(), RIGHT, Call::Check, YES)?;
    expect(rt.alloc(), STALE, Call::Check, "no stale a.o h.h\n")
}

#[test]
fn verifies_a_certificate(rt: HostRuntime) -> Result<(), Fail> {
    expect(rt.alloc(), RIGHT, Call::Verify, "yes 2 recipes 2 reads\n")?;
    expect(rt.alloc(), STALE, Call::Verify, "refused 74 a.o h.h")
}

#[test]
fn runs_a_plan(rt: HostRuntime) -> Result<(), Fail> {
    let run = "a.c 1 1\na.o 2 2\np 3 3\nplan ok\n";
    expect(rt.alloc(), RIGHT, Call::Simulate, run)
}

/// A plan that shows the stale header: after an edit of it all recipes but its reader run.
const SHOWN: &str = "\
make 1
begin a.o
look a.o a.c
look a.o h.h
put a.o a.o 3
done a.o
begin p
look p a.o
put p p 4
done p
end
edit h.h 5
make 1
pass a.o
begin p
look p a.o
put p p 4
done p
end
";

#[test]
fn shows_a_finding(rt: HostRuntime) -> Result<(), Fail> {
    expect(rt.alloc(), STALE, Call::Plan(1), SHOWN)?;
    expect(rt.alloc(), STALE, Call::Plan(2), "none\n")?;
    expect(rt.alloc(), RIGHT, Call::Plan(1), "none\n")
}

#[test]
fn shows_a_finding_or_the_verdict(rt: HostRuntime) -> Result<(), Fail> {
    expect(rt.alloc(), STALE, Call::PlanOrVerdict(1), SHOWN)?;
    expect(
        rt.alloc(),
        STALE,
        Call::PlanOrVerdict(2),
        "no stale a.o h.h\n",
    )?;
    expect(rt.alloc(), RIGHT, Call::PlanOrVerdict(1), YES)
}

/// Returns the verdict if memory is freed only at the end of the process.
fn left(alloc: Global, footprints: &str) -> Result<String, Fail> {
    let asked = Request {
        leaves_memory: true,
        ..request(alloc, &[])?
    };
    answer(alloc, &mut files(alloc, footprints)?, &asked, Call::Check)
}

#[test]
fn leaving_memory_changes_no_verdict(rt: HostRuntime) -> Result<(), Fail> {
    same(left(rt.alloc(), RIGHT)?.as_str(), YES)?;
    same(left(rt.alloc(), STALE)?.as_str(), "no stale a.o h.h\n")
}

/// Checks what a call gives, which is out of memory where an allocation fails.
fn expect_or_memory(
    rt: &impl Abort,
    alloc: Global,
    footprints: &str,
    call: Call,
    want: &str,
) -> Result<(), Fail> {
    let asked = request(alloc, &[])?;
    let got = answer(alloc, &mut files(alloc, footprints)?, &asked, call)?;
    assert!(rt; got.as_str() == want || got.as_str() == "want of memory");
    Ok(())
}

/// If an allocation fails, the text is `want of memory` or the whole answer.
#[test]
fn answers_or_wants_memory(rt: HostRuntime) -> Result<(), Fail> {
    let graph = "goals p\na.c:\na.o recipe: a.c\np recipe: a.o\n";
    expect_or_memory(&rt, rt.alloc(), RIGHT, Call::Graph, graph)?;
    expect_or_memory(&rt, rt.alloc(), RIGHT, Call::Check, YES)?;
    expect_or_memory(&rt, rt.alloc(), STALE, Call::Check, "no stale a.o h.h\n")?;
    expect_or_memory(&rt, rt.alloc(), STALE, Call::Plan(1), SHOWN)
}

/// If an allocation fails, the text is `want of memory` or the whole answer.
#[test]
fn reads_or_wants_memory(rt: HostRuntime) -> Result<(), Fail> {
    let yes = "yes 2 recipes 2 reads\n";
    expect_or_memory(&rt, rt.alloc(), RIGHT, Call::Verify, yes)?;
    let run = "a.c 1 1\na.o 2 2\np 3 3\nplan ok\n";
    expect_or_memory(&rt, rt.alloc(), RIGHT, Call::Simulate, run)
}
