//! Laws of steps and plans. Each is the contract of an empty function; calling the function gives
//! the law.

ghost use Rattle.mk_world.specs.OneRun.{FirstWorldIsOne, RunIsOne};
ghost use Rattle.mk_world.specs.StepLaws.{AllowedWhereAllHolds};
ghost use Rattle.mk_world.specs.RunLaws.{TakenStepsAreLegal, LegalStepsAreTaken, FrontsRunFirst, WholeRunsAgree};

/// A step is allowed exactly if all its tests hold.
pub fn allowed_where_all_holds()
    ensures { AllowedWhereAllHolds }
{}

/// Steps that are all taken one after another are a trace, and the trace leaves the resulting
/// world.
pub fn taken_steps_are_legal()
    ensures { TakenStepsAreLegal }
{}

/// The steps of a trace are all taken, except on out of memory.
pub fn legal_steps_are_taken()
    ensures { LegalStepsAreTaken }
{}

/// If the run of the first part of a plan isn't refused, the run of the whole plan is that run
/// followed by the run of the rest: it prints what both print, and continues from the world that
/// the first part leaves.
pub fn fronts_run_first()
    ensures { FrontsRunFirst }
{}

/// A graph and recorded inputs have only one first world.
pub fn first_world_is_one()
    ensures { FirstWorldIsOne }
{}

/// The lines of a plan have only one run from a world.
pub fn run_is_one()
    ensures { RunIsOne }
{}

/// A recipe writes the same contents when a plan runs it whole and when a schedule that shows a
/// finding does, if the whole run with either is a trace. So the two take the same steps.
pub fn whole_runs_agree()
    ensures { WholeRunsAgree }
{}
