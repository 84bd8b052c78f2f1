//! What a recipe needs that reads a file.

ghost use Rattle.std.specs.Prelude.{◌≡◌, option_map};
ghost use Rattle.mk_repair.specs.Provider.{provider};

use crate::node_name::name_of;
use mk_subject::Subject;

/// What a recipe needs that reads the file: the file itself where it is a source or the name of a
/// node; else the first recipe in the serial order that writes it; `None` where no recipe does.
/// Allocates nothing.
pub fn provider<'a>(subject: &'a Subject<'_>, file: &'a str) -> Option<&'a str>
    ensures { option_map (λ name. name.now) result ≡ provider subject.entry.now file.entry.now }
{
    if subject.setting().sources().contains(file) || subject.names().contains(file) {
        return Some(file);
    }
    let writer = subject.writers(file).first()?;
    Some(name_of(subject, *writer))
}
