//! Faults in words.

use mk_core_text::{Fault, caused_words, fault_words};
use mk_graph::GraphFault;
use mk_infer::InferFault;
use mk_lines::{Name, Names};
use mk_read::{Place, ReadFault, Word};
use mk_read_files::Cause;
use std::alloc::{AllocError, Global};
use std::process::Abort;
use std::test::Fail;

/// This line of `makefile`.
fn place(alloc: Global, line: usize) -> Result<Place, AllocError> {
    Ok(Place {
        file: Name::new(alloc, "makefile")?,
        line,
    })
}

/// Returns a cycle of two names.
fn cycle(alloc: Global) -> Result<Fault, AllocError> {
    let mut names = Vec::new(alloc);
    for word in ["a", "b", "a"] {
        names.push(Name::new(alloc, word)?)?;
    }
    Ok(Fault::Infer(InferFault::Graph(GraphFault::Cycle(Names::new(names)), None)))
}

/// Returns the text of a fault in words. Drops the fault.
fn said(alloc: Global, fault: Fault) -> Result<String, Fail> {
    let text = fault_words(alloc, &fault);
    drop(fault);
    Ok(String::from_utf8(text?)?)
}

#[test]
fn says_a_place(rt: HostRuntime) -> Result<(), Fail> {
    let alloc = rt.alloc();
    let word = Word::new(alloc, b"xdiff/../vim.h")?;
    let fault = Fault::Read(ReadFault::BadName(place(alloc, 3747)?, word));
    let wanted = "makefile:3747: BadName (27): xdiff/../vim.h: \
                  a word is no file name; look for %, *, ./, |, &, quotes or CR LF";
    assert_eq!(rt; said(alloc, fault)?.as_str(), wanted);
    Ok(())
}

#[test]
fn says_a_place_and_a_word(rt: HostRuntime) -> Result<(), Fail> {
    let alloc = rt.alloc();
    let target = Name::new(alloc, "prog")?;
    let fault = Fault::Read(ReadFault::TwoRecipes(place(alloc, 7)?, target));
    let wanted = "makefile:7: TwoRecipes (31): prog: \
                  a target has commands on two lines; keep those of one";
    assert_eq!(rt; said(alloc, fault)?.as_str(), wanted);
    Ok(())
}

#[test]
fn says_a_word(rt: HostRuntime) -> Result<(), Fail> {
    let alloc = rt.alloc();
    let fault = Fault::Infer(InferFault::NoRule(Name::new(alloc, "x.c")?, None));
    let wanted = "NoRule (41): x.c: no rule makes it and it is no source; mend it, or record again";
    assert_eq!(rt; said(alloc, fault)?.as_str(), wanted);
    Ok(())
}

#[test]
fn says_words(rt: HostRuntime) -> Result<(), Fail> {
    let alloc = rt.alloc();
    let wanted = "Cycle (42): a b a: prerequisites form a cycle; remove the one that closes it";
    assert_eq!(rt; said(alloc, cycle(alloc)?)?.as_str(), wanted);
    Ok(())
}

#[test]
fn says_a_name_alone(rt: HostRuntime) -> Result<(), Fail> {
    let alloc = rt.alloc();
    let fault = Fault::Infer(InferFault::NoGoal);
    assert_eq!(rt;
        said(alloc, fault)?.as_str(),
        "NoGoal (44): there is no goal; write a rule"
    );
    Ok(())
}

/// Returns the text of a failed read with this cause.
fn said_of(alloc: Global, cause: Cause) -> Result<String, Fail> {
    let fault = Fault::FileReadFailed(Name::new(alloc, "B")?);
    let text = caused_words(alloc, &fault, cause);
    drop(fault);
    Ok(String::from_utf8(text?)?)
}

#[test]
fn says_why_a_file_is_not_read(rt: HostRuntime) -> Result<(), Fail> {
    let alloc = rt.alloc();
    let wanted = "FileReadFailed (35): B: a file of the command line can't be read; \
                  give another: this one is a folder";
    assert_eq!(rt; said_of(alloc, Cause::Folder)?.as_str(), wanted);
    let wanted = "FileReadFailed (35): B: a file of the command line can't be read; give another";
    assert_eq!(rt; said_of(alloc, Cause::Other)?.as_str(), wanted);
    Ok(())
}

#[test]
fn gives_no_cause_for_another_fault(rt: HostRuntime) -> Result<(), Fail> {
    let alloc = rt.alloc();
    let fault = Fault::NoFile(Name::new(alloc, "B")?);
    let text = caused_words(alloc, &fault, Cause::Folder);
    drop(fault);
    let wanted = "NoFile (38): B: a file of the command line doesn't exist; mend its name";
    assert_eq!(rt; String::from_utf8(text?)?.as_str(), wanted);
    Ok(())
}
