//! Laws of builds. Each is the contract of an empty function; calling the function gives the law.

ghost use Rattle.mk_build.specs.BuildLaws.{FirstIsAStart, SerialMakeIsLegal, BeforeHoldsInHistories, NotBeforeIsShown, ReadyRecipesRunTogether, OneBuildIsRight, AcceptedIsRight, StaleIsShown, StaleHistoryExists, SchedulesRun, ScheduleHistoryExists, RecipesOverlap, MakesCanBeStopped, WaysGoOverChains, NamesHaveOneNumber};
ghost use Rattle.mk_build.specs.BreakLaws.{RecipesCanBreakOff, OthersGoOn, BrokenIsNotBegunAgain};
ghost use Rattle.mk_build.specs.CoherenceLaws.{StartIsCoherent, CoherenceIsKept, CoherentIsRight, CoherentIsFresh, HandEditsAreNotCoherent};
ghost use Rattle.mk_build.specs.RunLaws.{LastRunsSawWhatIsThere, CarriedRanBefore};

/// The first disk of a world, which has exactly its given files, numbered in the order of their
/// bytes, is a start disk in the other laws.
pub fn first_is_a_start()
    ensures { FirstIsAStart }
{}

/// If the clean build of a part of the goals has a value and there are stamps for all its writes,
/// then the serial make of that part is legal and leaves what the clean build gives. It has one
/// job, runs each recipe of the serial order whole, passes the other nodes, and ends.
pub fn serial_make_is_legal()
    ensures { SerialMakeIsLegal }
{}

/// If a node runs before a recipe, it is done whenever the recipe is ready, in each trace over any
/// build inputs.
pub fn before_holds_in_histories()
    ensures { BeforeHoldsInHistories }
{}

/// Two ready recipes may begin one after the other, whatever else runs, if there are jobs for both.
pub fn ready_recipes_run_together()
    ensures { ReadyRecipesRunTogether }
{}

/// If a node doesn't run before another one, a trace shows it: a make with one job begins the other
/// one while the node isn't done.
pub fn not_before_is_shown()
    ensures { NotBeforeIsShown }
{}

/// If footprints are sound and there is no race, then one make of any part of the goals from a
/// start disk builds those goals, with any number of jobs and any overlap of recipes.
pub fn one_build_is_right()
    ensures { OneBuildIsRight }
{}

/// If footprints are sound, there is no race, and each read of a file that can change has a way,
/// then every trace is right. Recipes in it may fail or be killed.
pub fn accepted_is_right()
    ensures { AcceptedIsRight }
{}

/// If footprints are sound, a start disk is coherent.
pub fn start_is_coherent()
    ensures { StartIsCoherent }
{}

/// If footprints are sound and there is no race, each trace keeps a disk coherent, after each of
/// its steps.
pub fn coherence_is_kept()
    ensures { CoherenceIsKept }
{}

/// If footprints are sound, there is no race, and each read of a file that can change has a way,
/// then each trace from a coherent disk is right.
pub fn coherent_is_right()
    ensures { CoherentIsRight }
{}

/// On a coherent disk, a recipe that isn't bound to run and reads nothing later than its target is
/// fresh.
pub fn coherent_is_fresh()
    ensures { CoherentIsFresh }
{}

/// A disk isn't coherent if a fresh recipe's output was edited by hand to another content, and the
/// recipe isn't bound to run and reads nothing later than its target.
pub fn hand_edits_are_not_coherent()
    ensures { HandEditsAreNotCoherent }
{}

/// If footprints are sound and a read of a file that can change has no way, a trace shows it, if
/// there are enough stamps: make all goals, edit the file if it is editable, and make all goals
/// again without the recipe and those that it reaches by carrying. At its end the file is later
/// than all files that the recipe wrote.
pub fn stale_is_shown()
    ensures { StaleIsShown }
{}

/// For each read there are steps of the form that `stale_is_shown` needs.
pub fn stale_history_exists()
    ensures { StaleHistoryExists }
{}

/// Any schedule can be run over any build inputs: from a start disk, a make of a part of the goals
/// with one job that runs the schedule's recipes whole in order, passes its other nodes, and then
/// begins a recipe that can start is legal, if there are enough stamps. The footprints need not be
/// sound.
pub fn schedules_run()
    ensures { SchedulesRun }
{}

/// For each list of nodes there are steps of the form that `schedules_run` needs.
pub fn schedule_history_exists()
    ensures { ScheduleHistoryExists }
{}

/// Recipes overlap: take a start disk, a make with at least two jobs, and a schedule whose recipes
/// have run whole. Two recipes that can then start may both begin, and then read, write and end in
/// any interleaving of their steps, if there are enough stamps.
pub fn recipes_overlap()
    ensures { RecipesOverlap }
{}

/// Whenever no recipe runs in a make of a trace, the make may be stopped, which changes no file,
/// and a make of any part of the goals may begin.
pub fn makes_can_be_stopped()
    ensures { MakesCanBeStopped }
{}

/// A running recipe that writes its target may break off, so that the target is removed; one that
/// must run may break off, so that each file stays.
pub fn recipes_can_break_off()
    ensures { RecipesCanBreakOff }
{}

/// After a recipe broke off, another ready recipe may begin in its place.
pub fn others_go_on()
    ensures { OthersGoOn }
{}

/// A recipe that broke off isn't begun again in the same make.
pub fn broken_is_not_begun_again()
    ensures { BrokenIsNotBegunAgain }
{}

/// In each trace from a start disk, if footprints are sound and there is no race, each file that a
/// recipe reads still contains what the recipe's last whole run saw in it, or has changed since.
pub fn last_runs_saw_what_is_there()
    ensures { LastRunsSawWhatIsThere }
{}

/// If footprints are sound, there is no race, each read of a file that can change has a way, and a
/// recipe may be passed, then the last run of each recipe that it carries ended before its own last
/// run began.
pub fn carried_ran_before()
    ensures { CarriedRanBefore }
{}

/// If a chain of carried recipes ends at a recipe with a way, then its first recipe has a way for
/// the same file.
pub fn ways_go_over_chains()
    ensures { WaysGoOverChains }
{}

/// In a graph no two nodes have the same name.
pub fn names_have_one_number()
    ensures { NamesHaveOneNumber }
{}
