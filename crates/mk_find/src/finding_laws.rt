//! Laws about findings. Each function exists for its contract alone: a caller has the law as a
//! fact.

ghost use Rattle.mk_find.specs.FindingLaws.{ListIsOne, ListedExactly, NothingFoundIsSound, NothingFoundIsSelected, NoRaceFoundIsNone, NothingFoundIsRight, FindingsAreOne, HiddenAreAll, NoFindings};

use mk_build::build_laws::accepted_is_right;
use mk_graph::laws::serial_reaches_each_once;
use mk_graph::schedule_laws::before_is_decided;
use mk_infer_laws::laws::{graph_stays_selected, more_takes_no_choice_away, parts_stay_selected};

/// Only one list has just those candidates whose condition holds, in their order.
pub fn list_is_one()
    ensures { ListIsOne }
{}

/// A list of findings has just the candidates whose condition holds.
pub fn listed_exactly()
    ensures { ListedExactly }
{}

/// Footprints without a static finding are sound.
pub fn nothing_found_is_sound()
    ensures { NothingFoundIsSound }
{
    serial_reaches_each_once();
}

/// Without a `Selection` finding, the same graph is selected whatever part of the files that
/// recipes write exists, for the goals and for each subset of them.
pub fn nothing_found_is_selected()
    ensures { NothingFoundIsSelected }
{
    serial_reaches_each_once();
    more_takes_no_choice_away();
    graph_stays_selected();
    parts_stay_selected();
}

/// If no race is found, there is none.
pub fn no_race_found_is_none()
    ensures { NoRaceFoundIsNone }
{
    before_is_decided();
    serial_reaches_each_once();
}

/// If there is no static finding and no race, and each read of a file that can change has a way,
/// every legal history is right.
pub fn nothing_found_is_right()
    ensures { NothingFoundIsRight }
{
    nothing_found_is_sound();
    no_race_found_is_none();
    accepted_is_right();
}

/// At most one list of findings meets `AreFindings`.
pub fn findings_are_one()
    ensures { FindingsAreOne }
{
    list_is_one();
}

/// If the list of findings is empty, there is no static finding, no race and no stale read.
pub fn no_findings()
    ensures { NoFindings }
{}

/// If there is no static finding, what such findings would hide are all findings.
pub fn hidden_are_all()
    ensures { HiddenAreAll }
{
    nothing_found_is_sound();
}
