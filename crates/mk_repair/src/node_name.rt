//! The names of nodes.

ghost use Rattle.std.specs.Prelude.{◌≡◌};
ghost use Rattle.mk_subject.specs.Subject.{name_of};

use mk_subject::Subject;

/// The name of a node; empty if there is no such node. Allocates nothing.
pub fn name_of<'a>(subject: &'a Subject<'_>, number: usize) -> &'a str
    ensures { result.now ≡ name_of subject.entry.now number }
{
    match subject.names().as_slice().get(number) {
        Some(name) => *name,
        None => "",
    }
}
