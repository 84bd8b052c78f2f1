//! How what is explained is spelled.

ghost use Rattle.std.specs.Prelude.{◌≡◌};
ghost use Rattle.mk_explain.specs.Explain.{spelled};

use crate::faults::fault_spelled;
use crate::findings::finding_spelled;
use crate::terms::term_text;

/// The word as it is explained: a finding's first word and a fault's name may have letters of
/// either case. A word that answers begin with is no fault's name: `cycle` isn't `Cycle`.
pub fn spelled<'a>(what: &'a str) -> &'a str
    ensures { result.now ≡ spelled what.entry.now }
{
    if let Some(word) = finding_spelled(what) {
        return word;
    }
    if term_text(what).is_some() {
        return what;
    }
    match fault_spelled(what) {
        Some(name) => name,
        None => what,
    }
}
