//! Names in ascending order of their bytes, without repeats.

ghost use Rattle.std.specs.Prelude.{ℕ, List, ◌↔◌, IfOk};
ghost use Rattle.mk_graph.specs.Membership.{Has};
ghost use Rattle.mk_world.specs.First.{AreSorted};

use mk_lines::BorrowedNames;
use std::alloc::{AllocError, Global};

/// The same names in ascending order of their bytes. The only error is out of memory.
pub fn in_order<'a>(
    alloc: Global,
    names: &BorrowedNames<'a>,
) -> Result<BorrowedNames<'a>, AllocError>
    ensures sorted { IfOk result (λ ordered. AreSorted ordered) }
    ensures all { IfOk result (λ ordered. (f : List ℕ) → Has ordered f ↔ Has names.now f) }
{
    let mut texts = Vec::from_slice(alloc, names.as_slice())?;
    texts.sort()?;
    let mut ordered = BorrowedNames::with_capacity(alloc, texts.len())?;
    for &text in texts.as_slice() {
        ordered.insert(text)?;
    }
    Ok(ordered)
}
