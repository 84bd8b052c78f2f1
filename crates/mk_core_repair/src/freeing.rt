//! Requests whose inputs are freed.

ghost use Rattle.std.specs.Prelude.{◌≡◌, false, map, IfOk};

use mk_core::{Name, Names, Operands, Request};
use std::alloc::{AllocError, Global};

/// A copy of the name, if there is one. The only error is out of memory.
fn copied(name: &Option<Name>) -> Result<Option<Name>, AllocError>
    ensures { IfOk result (λ copy. copy ≡ name.now) }
{
    match name {
        Some(name) => Ok(Some(name.clone()?)),
        None => Ok(None),
    }
}

/// Copies of the operands. The only error is out of memory.
fn copied_operands(alloc: Global, words: &[Vec<u8>]) -> Result<Operands, AllocError>
    ensures { IfOk result (λ operands. operands ≡ map (λ word. word.items) words.now) }
{
    let mut copies = Vec::new(alloc);
    for word in words {
        copies.push(word.to_vec(alloc)?)?;
    }
    Ok(Operands::new(copies))
}

/// Copies of the names. The only error is out of memory.
fn copied_names(alloc: Global, names: &[Name]) -> Result<Names, AllocError>
    ensures { IfOk result (λ copies. copies ≡ names.now) }
{
    let mut copies = Vec::new(alloc);
    for name in names {
        copies.push(name.clone()?)?;
    }
    Ok(Names::new(copies))
}

/// The request, where inputs are always freed: a later judgement needs the memory of an earlier
/// one. The only error is out of memory.
pub fn freeing(alloc: Global, request: &Request) -> Result<Request, AllocError>
    ensures { IfOk result (λ copy. copy ≡ record request.now { leaves_memory = false }) }
{
    Ok(Request {
        makefile: copied(&request.makefile)?,
        defaults: request.defaults,
        operands: copied_operands(alloc, request.operands.as_slice())?,
        goals: copied_names(alloc, request.goals.as_slice())?,
        book: copied(&request.book)?,
        commands: request.commands,
        leaves_memory: false,
    })
}
