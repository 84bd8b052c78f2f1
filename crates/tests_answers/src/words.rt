//! Words of the command line, and the lines of faults.

use crate::requests::{same, text_of};
use mk_core::{Fault, Name, Names, split_words};
use mk_infer::InferFault;
use std::alloc::Global;
use std::process::Abort;
use std::test::Fail;

/// Returns the line of a fault.
fn line_of(alloc: Global, fault: Fault) -> Result<String, Fail> {
    let bytes = text_of(alloc, Err(fault))?;
    Ok(String::from_utf8(bytes)?)
}

#[test]
fn writes_want_of_memory(rt: HostRuntime) -> Result<(), Fail> {
    let line = line_of(rt.alloc(), Fault::Infer(InferFault::Memory))?;
    same(line.as_str(), "want of memory")
}

#[test]
fn writes_names_with_blanks(rt: HostRuntime) -> Result<(), Fail> {
    let name = Name::new(rt.alloc(), "a b")?;
    let line = line_of(rt.alloc(), Fault::Infer(InferFault::NoRule(name, None)))?;
    same(line.as_str(), "refused 41 a b")
}

/// Returns the texts of names.
fn spelled<'a>(alloc: Global, names: &'a Names) -> Result<Vec<&'a str>, Fail> {
    Ok(names.as_slice().iter().map(Name::as_str).collect(alloc)?)
}

#[test]
fn tells_operands_from_goals(rt: HostRuntime) -> Result<(), Fail> {
    let (operands, _goals) = split_words(rt.alloc(), &["b=1", "a", "", "=", "a", "c::="])?;
    let mut text = Vec::new(rt.alloc());
    for operand in operands.as_slice() {
        text.push(b' ')?;
        text.extend_from_slice(operand)?;
    }
    same(String::from_utf8(text)?.as_str(), " b=1 = c::=")
}

#[test]
fn tells_goals_from_operands(rt: HostRuntime) -> Result<(), Fail> {
    let (_operands, goals) = split_words(rt.alloc(), &["b=1", "a", "", "=", "a", "c::="])?;
    let spelled = spelled(rt.alloc(), &goals)?;
    assert_eq!(rt; spelled.as_slice(), ["a", "", "a"].as_slice());
    Ok(())
}
