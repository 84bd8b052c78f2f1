//! Laws of what `since` promises. Each function exists for its contract: a caller has the law as a
//! fact.

ghost use Rattle.mk_core_since.specs.Next.{NamedIsRight, NamedIsRightWithout, SinceIsNext};

use mk_build::build_laws::names_have_one_number;
use mk_build_since::laws::{next_builds_are_right, next_builds_are_right_trusting};
use mk_cert::laws::certificate_is_accepted;
use mk_find::finding_laws::{no_findings, no_race_found_is_none, nothing_found_is_sound};
use mk_graph::laws::serial_reaches_each_once;
use mk_since::laws::{doubts_leave_trust, named_are_named};

/// If `check` says yes of both builds, what is named are the files to remove, and after that makes
/// of the new build are right.
pub fn named_is_right()
    ensures { NamedIsRight }
{
    certificate_is_accepted();
    named_are_named();
    names_have_one_number();
    next_builds_are_right();
    no_findings();
    no_race_found_is_none();
    nothing_found_is_sound();
    serial_reaches_each_once();
}

/// If all findings of the old build are races and stale reads, and `check` says yes of the new one,
/// what is named are the files to remove without its doubted recipes, and after that makes of the
/// new build are right.
pub fn named_is_right_without()
    ensures { NamedIsRightWithout }
{
    certificate_is_accepted();
    doubts_leave_trust();
    named_are_named();
    names_have_one_number();
    next_builds_are_right_trusting();
    no_findings();
    no_race_found_is_none();
    nothing_found_is_sound();
    serial_reaches_each_once();
}

/// If `since` names files, makes of the new build are right once these are removed.
pub fn since_is_next()
    ensures { SinceIsNext }
{
    named_is_right();
    named_is_right_without();
}
