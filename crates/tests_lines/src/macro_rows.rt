//! Rows over a table of macros: definitions, operands, and texts that are expanded.

use crate::expecting::same;
use mk_macros::{Locals, MacroFault, MacroTable, Op};
use std::alloc::Global;
use std::process::Abort;
use std::str;
use std::test::Fail;
use tests_tables::{fields_of, unfolded};

/// Returns the operator with this spelling.
fn op_of(word: &str) -> Op {
    match word {
        "::=" => Op::Now,
        ":::=" => Op::Double,
        "?=" => Op::IfUnset,
        "+=" => Op::Append,
        _ => Op::Delay,
    }
}

/// Returns the words of a fault. Out of memory ends the test.
fn words_of(alloc: Global, fault: MacroFault) -> Result<String, Fail> {
    match fault {
        MacroFault::Memory => Err(MacroFault::Memory.into()),
        MacroFault::Recursive(name) => {
            let name = str::from_utf8(name.as_bytes()).unwrap_or("?");
            Ok(format!(in alloc; "a loop of {name}")?)
        }
        other => Ok(format!(in alloc; "{other}")?),
    }
}

/// Returns the words of a fault, or nothing.
pub fn told(alloc: Global, outcome: Result<(), MacroFault>) -> Result<String, Fail> {
    match outcome {
        Ok(()) => Ok(String::new(alloc)),
        Err(fault) => words_of(alloc, fault),
    }
}

/// Returns what a text expands to, after a `~` if it varies, or the words of the fault.
pub fn expanded(
    alloc: Global,
    macros: &MacroTable,
    locals: &Locals<'_>,
    text: &str,
) -> Result<String, Fail> {
    let found = match macros.expand(alloc, text.as_bytes(), locals) {
        Ok(found) => found,
        Err(fault) => return words_of(alloc, fault),
    };
    let mark = if found.varying { "~" } else { "" };
    let mut shown = String::from_str(alloc, mark)?;
    shown.push_str(str::from_utf8(found.text.as_slice()).unwrap_or("?"))?;
    Ok(shown)
}

/// Defines a macro and returns the words of the fault, or nothing.
fn defined(
    alloc: Global,
    macros: &mut MacroTable,
    name: &str,
    op: &str,
    text: &str,
) -> Result<String, Fail> {
    let done = macros.define(name.as_bytes(), op_of(op), text.as_bytes());
    told(alloc, done)
}

/// Runs a row, without its last field, which is the expected answer.
fn outcome(
    alloc: Global,
    macros: &mut MacroTable,
    locals: &Locals<'_>,
    fields: &[&str],
) -> Result<String, Fail> {
    match fields {
        [text, _] => expanded(alloc, macros, locals, text),
        [_, operand, _] => told(alloc, macros.fix(operand.as_bytes())),
        [name, op, text, _] => defined(alloc, macros, name, op, text),
        _ => Ok(String::from_str(alloc, "no row")?),
    }
}

/// Runs a row and checks its answer.
fn follow_row(
    rt: &impl Abort,
    alloc: Global,
    macros: &mut MacroTable,
    locals: &Locals<'_>,
    row: &str,
) -> Result<(), Fail> {
    let unfolded = unfolded(alloc, row)?;
    let fields = fields_of(alloc, unfolded.as_str())?;
    let said = outcome(alloc, macros, locals, &fields)?;
    same(
        rt,
        said.as_str(),
        fields.last().copied().unwrap_or("?"),
        row,
    );
    Ok(())
}

/// Runs each row after those before it and checks its answer. `TEXT‖WANT` expands a text,
/// `fix‖OPERAND‖WANT` takes an operand, and `NAME‖OP‖TEXT‖WANT` defines a macro. For the last two
/// WANT is the words of a fault, or nothing. A blank row starts with a new table.
pub fn follow(
    rt: &impl Abort,
    alloc: Global,
    macros: &mut MacroTable,
    locals: &Locals<'_>,
    rows: &str,
) -> Result<(), Fail> {
    for row in rows.lines() {
        if row.is_empty() {
            *macros = MacroTable::new(alloc);
        } else {
            follow_row(rt, alloc, macros, locals, row)?;
        }
    }
    Ok(())
}

/// Runs and checks each row over a new table, outside commands.
pub fn follow_anew(rt: &impl Abort, alloc: Global, rows: &str) -> Result<(), Fail> {
    let mut macros = MacroTable::new(alloc);
    let followed = follow(rt, alloc, &mut macros, &Locals::Empty, rows);
    drop(macros);
    followed
}
