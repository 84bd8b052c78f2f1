//! Files in memory, requests, and what is printed for them.

use mk_core::{
    Fault, MemFiles, Name, Request, Simulation, Verdict, check, fault_text, graph_text, render,
    run_text, simulate, split_words, verify_text,
};
use mk_core_evidence::{Evidence, evidence_or_verdict, evidence_text};
use std::alloc::{AllocError, Global};
use std::test::Fail;

/// A program of one object that reads a header, which its rule doesn't name.
pub(crate) const MAKEFILE: &str = "p: a.o\n\tcc -o p a.o\na.o: a.c\n\tcc -c a.c\n";

/// Its footprints, with that header.
pub(crate) const STALE: &str = r#"{"format":1,"fixed":[],"sources":["a.c","h.h"],"records":[
{"target":"p","commands":["cc -o p a.o"],"reads":["a.o"],"writes":["p"]},
{"target":"a.o","commands":["cc -c a.c"],"reads":["a.c","h.h"],"writes":["a.o"]}]}"#;

/// Its footprints, without that header.
pub(crate) const RIGHT: &str = r#"{"format":1,"fixed":[],"sources":["a.c"],"records":[
{"target":"p","commands":["cc -o p a.o"],"reads":["a.o"],"writes":["p"]},
{"target":"a.o","commands":["cc -c a.c"],"reads":["a.c"],"writes":["a.o"]}]}"#;

/// The certificate of the program without that header.
pub(crate) const CERTIFICATE: &str = concat!(
    r#"{"format":1,"goals":["p"],"ways":[{"end":"source","file":"a.c","path":["a.o"],"#,
    r#""recipe":"a.o"},{"end":"written","file":"a.o","path":["p","a.o"],"recipe":"p"}]}"#,
);

/// A plan that makes the program once.
pub(crate) const PLAN: &str = "make 1\nrun a.o\nrun p\nend\n";

/// Makes the files of the program: the makefile, these footprints in `B`, the certificate in `K`
/// and the plan in `P`.
pub(crate) fn files(alloc: Global, footprints: &str) -> Result<MemFiles, AllocError> {
    let mut files = MemFiles::new(alloc);
    files.add("makefile", MAKEFILE.as_bytes())?;
    files.add("B", footprints.as_bytes())?;
    files.add("K", CERTIFICATE.as_bytes())?;
    files.add("P", PLAN.as_bytes())?;
    Ok(files)
}

/// Makes a request with these macro operands and goals, over the footprints in `B`.
pub(crate) fn request(alloc: Global, words: &[&str]) -> Result<Request, AllocError> {
    let (operands, goals) = split_words(alloc, words)?;
    Ok(Request {
        makefile: None,
        defaults: true,
        operands,
        goals,
        book: Some(Name::new(alloc, "B")?),
        commands: false,
        leaves_memory: false,
    })
}

/// Returns the text of an answer, or the line of its fault.
pub(crate) fn text_of(
    alloc: Global,
    answer: Result<Vec<u8>, Fault>,
) -> Result<Vec<u8>, AllocError> {
    match answer {
        Ok(text) => Ok(text),
        Err(fault) => fault_text(alloc, &fault),
    }
}

/// Returns the printed verdict, or the line of its fault.
fn rendered(alloc: Global, answer: Result<Verdict, Fault>) -> Result<Vec<u8>, AllocError> {
    match answer {
        Ok(verdict) => render(alloc, &verdict),
        Err(fault) => fault_text(alloc, &fault),
    }
}

/// Returns the text of a run, or the line of its fault.
fn ran(alloc: Global, answer: Result<Simulation, Fault>) -> Result<Vec<u8>, AllocError> {
    match answer {
        Ok(run) => run_text(alloc, run),
        Err(fault) => fault_text(alloc, &fault),
    }
}

/// Returns a plan, `none`, or the line of the fault.
fn planned(alloc: Global, answer: Result<Option<Vec<u8>>, Fault>) -> Result<Vec<u8>, AllocError> {
    match answer {
        Ok(Some(plan)) => Ok(plan),
        Ok(None) => Vec::from_slice(alloc, b"none\n"),
        Err(fault) => fault_text(alloc, &fault),
    }
}

/// Returns a plan, the printed verdict, or the line of the fault.
fn shown(alloc: Global, answer: Result<Evidence, Fault>) -> Result<Vec<u8>, AllocError> {
    match answer {
        Ok(Evidence::Plan(plan)) => Ok(plan),
        Ok(Evidence::NoPlan(verdict)) => render(alloc, &verdict),
        Err(fault) => fault_text(alloc, &fault),
    }
}

/// A public call.
#[derive(Clone, Copy)]
pub(crate) enum Call {
    /// `graph_text`.
    Graph,
    /// `check`, then `render`.
    Check,
    /// `verify_text` of `K`.
    Verify,
    /// `simulate` of `P`.
    Simulate,
    /// `evidence_text` of the finding with this number.
    Plan(u64),
    /// `evidence_or_verdict` of the finding with this number.
    PlanOrVerdict(u64),
}

/// Returns the bytes that a call gives.
fn bytes_of(
    alloc: Global,
    files: &mut MemFiles,
    request: &Request,
    call: Call,
) -> Result<Vec<u8>, AllocError> {
    match call {
        Call::Graph => text_of(alloc, graph_text(alloc, files, request)),
        Call::Check => rendered(alloc, check(alloc, files, request)),
        Call::Verify => text_of(alloc, verify_text(alloc, files, request, "K")),
        Call::Simulate => ran(alloc, simulate(alloc, files, request, "P")),
        Call::Plan(number) => planned(alloc, evidence_text(alloc, files, request, number)),
        Call::PlanOrVerdict(number) => {
            shown(alloc, evidence_or_verdict(alloc, files, request, number))
        }
    }
}

/// Returns the text that a call gives.
pub(crate) fn answer(
    alloc: Global,
    files: &mut MemFiles,
    request: &Request,
    call: Call,
) -> Result<String, Fail> {
    let bytes = bytes_of(alloc, files, request, call)?;
    Ok(String::from_utf8(bytes)?)
}

/// Checks that two texts are the same. Others are an error that shows both.
pub(crate) fn same(got: &str, want: &str) -> Result<(), Fail> {
    if got == want {
        return Ok(());
    }
    Err(Fail::new(format_args!("gives\n{got}\nand not\n{want}")))
}
