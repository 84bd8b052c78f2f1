//! Laws of written plans. Each is the contract of a function that only calls other laws; calling
//! the function gives the law.

ghost use Rattle.mk_world_plan.specs.Spelling.{PlainPathsAreWellSpelled};
ghost use Rattle.mk_world_plan.specs.PlanLaws.{LegalStepsAreReadable, WrittenHistoryRuns, WrittenPlanRuns, WrittenTextIsRead};

use mk_build::build_laws::names_have_one_number;
use mk_graph::laws::serial_reaches_each_once;
use mk_graph::schedule_laws::can_start_stays;
use mk_world::laws::allowed_where_all_holds;

/// The text written for steps is read back as the plan of these steps, line by line, if their names
/// are well spelled, their makes have 1 to 4,096 jobs, their contents are below 2^64, and there are
/// at most 65,536 lines.
pub fn text_is_read()
    ensures { WrittenTextIsRead }
{}

/// A plain path is well spelled.
pub fn plain_paths_are_well_spelled()
    ensures { PlainPathsAreWellSpelled }
{}

/// The lines of a trace can be read back, if the names of the world are well spelled, makes have at
/// most 4,096 jobs, and contents are below 2^64.
pub fn legal_steps_are_readable()
    ensures { LegalStepsAreReadable }
{}

/// The plan written from a trace that begins without a make has a run that isn't refused. Each of
/// its runs isn't refused and leaves the same files, clock and outcomes as the trace. It takes the
/// steps of the trace, with two exceptions: passes of nodes without a recipe, which the run takes
/// by itself, and a make of all goals, which has them in the graph's order.
pub fn written_plan_runs()
    ensures { WrittenPlanRuns }
{
    allowed_where_all_holds();
    names_have_one_number();
    serial_reaches_each_once();
    can_start_stays();
}

/// Take a trace from a first world whose names are plain paths, with at most 4,096 jobs in each
/// make, contents below 2^64, and at most 65,536 lines. Its text is read back, and the plan runs to
/// its end as the trace does.
pub fn written_history_runs()
    ensures { WrittenHistoryRuns }
{
    text_is_read();
    plain_paths_are_well_spelled();
    legal_steps_are_readable();
    written_plan_runs();
}
