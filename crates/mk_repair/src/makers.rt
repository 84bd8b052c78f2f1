//! What may make a file that no recipe writes which the goals reach.

ghost use Rattle.std.specs.Prelude.{◌≡◌};
ghost use Rattle.mk_repair.specs.Lookups.{AreLookups, makers_view};
ghost use Rattle.mk_repair.specs.Makers.{is_recorded_writer, makers_of};

use crate::commanded::has_name;
use crate::lookups::Lookups;
use mk_subject::Subject;

/// The targets that may make a file: none, one alone, or the first two of more.
#[derive(Debug, Clone, Copy)]
pub enum Makers<'a> {
    /// No target.
    None,
    /// This target alone.
    One(&'a str),
    /// These targets, and perhaps others.
    Two(&'a str, &'a str),
}

/// Whether the record of the target says that its recipe writes the file. Allocates nothing.
fn is_recorded_writer(subject: &Subject<'_>, file: &str, target: &str) -> bool
    ensures { result ≡ is_recorded_writer subject.now file.now target.now }
{
    match subject.setting().record_of(target) {
        Some(record) => has_name(&record.writes, file),
        None => false,
    }
}

/// The targets that the goals don't reach and whose recipes may make the file: the file itself
/// where it is one, else those that were recorded so. Takes time linear in what these targets were
/// recorded to write. Allocates nothing.
pub fn makers_of<'a>(subject: &Subject<'_>, lookups: &Lookups<'a>, file: &'a str) -> Makers<'a>
    requires { AreLookups subject.now lookups.now }
    ensures { makers_view result ≡ makers_of subject.now file.entry.now }
{
    if lookups.unreached.contains(file) {
        return Makers::One(file);
    }
    let mut first = None;
    for target in lookups.unreached.as_slice() {
        if !is_recorded_writer(subject, file, target) {
            continue;
        }
        match first {
            None => first = Some(*target),
            Some(name) => return Makers::Two(name, *target),
        }
    }
    match first {
        None => Makers::None,
        Some(name) => Makers::One(name),
    }
}
