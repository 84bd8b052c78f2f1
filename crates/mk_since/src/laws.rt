//! Laws of what is named and of doubts. Each function exists for its contract: a caller has the law
//! as a fact.

ghost use Rattle.mk_since.specs.Doubts.{DoubtsLeaveTrust};
ghost use Rattle.mk_since.specs.Laws.{DoubtsAreThese, NamedAreNamed};

use mk_build::build_laws::names_have_one_number;
use mk_build_since::laws::ways_are_decided;
use mk_find::finding_laws::{listed_exactly, nothing_found_is_sound};
use mk_graph::laws::serial_reaches_each_once;
use mk_graph::schedule_laws::before_is_decided;
use mk_subject::laws::all_writes_exactly;

/// What is named from what is kept of an old build are the files to remove.
pub fn named_are_named()
    ensures { NamedAreNamed }
{
    all_writes_exactly();
    names_have_one_number();
    serial_reaches_each_once();
}

/// If all findings are races and stale reads, the targets that are found among the rows of a build
/// are those of its doubted recipes.
pub fn doubts_are_these()
    ensures { DoubtsAreThese }
{
    before_is_decided();
    listed_exactly();
    names_have_one_number();
    nothing_found_is_sound();
    serial_reaches_each_once();
}

/// If all findings are races and stale reads, all recipes may be trusted but for the doubted ones.
pub fn doubts_leave_trust()
    ensures { DoubtsLeaveTrust }
{
    before_is_decided();
    names_have_one_number();
    nothing_found_is_sound();
    serial_reaches_each_once();
    ways_are_decided();
}
