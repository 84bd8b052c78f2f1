//! Laws about evidence. Each function exists for its contract alone: a caller has the law as a
//! fact.

ghost use Rattle.mk_find_evidence.specs.Laws.{ReportedIsShown};

use mk_build::build_laws::{
    first_is_a_start, not_before_is_shown, schedules_run, stale_history_exists, stale_is_shown,
};
use mk_find::finding_laws::{listed_exactly, nothing_found_is_sound};
use mk_graph::laws::{order_of_all_goals, serial_reaches_each_once};
use mk_graph::schedule_laws::can_start_stays;

/// If there are enough stamps, each race and each stale read among the findings can be shown from
/// the first disk.
pub fn reported_is_shown()
    ensures { ReportedIsShown }
{
    listed_exactly();
    nothing_found_is_sound();
    first_is_a_start();
    not_before_is_shown();
    schedules_run();
    can_start_stays();
    serial_reaches_each_once();
    stale_history_exists();
    stale_is_shown();
    order_of_all_goals();
}
