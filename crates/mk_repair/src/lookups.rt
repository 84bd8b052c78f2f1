//! The tables in which the words of findings are looked up.

ghost use Rattle.std.specs.Prelude.{IfOk};
ghost use Rattle.mk_repair.specs.Lookups.{AreLookups};

use crate::needed::needed_names;
use crate::unreached::unreached_names;
use mk_lines::BorrowedNames;
use mk_subject::Subject;
use std::alloc::{AllocError, Global};

/// The tables of a subject in which the words of its findings are looked up.
#[derive(Drop)]
pub struct Lookups<'a> {
    /// The names that recipes need which aren't phony.
    pub needed: BorrowedNames<'a>,
    /// The targets with commands that the goals don't reach.
    pub unreached: BorrowedNames<'a>,
}

/// The tables of the subject, in time linear in the makefile and the graph. The only error is out
/// of memory.
pub fn lookups_of<'a>(alloc: Global, subject: &'a Subject<'_>) -> Result<Lookups<'a>, AllocError>
    ensures { IfOk result (λ lookups. AreLookups subject.entry.now lookups) }
{
    let needed = needed_names(alloc, subject)?;
    let unreached = unreached_names(alloc, subject)?;
    Ok(Lookups { needed, unreached })
}
