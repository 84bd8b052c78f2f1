//! Laws of builds whose recipes behave as trees. Each is the contract of an empty function; calling
//! the function gives the law.

ghost use Rattle.mk_build_behaviours.specs.BehaviourLaws.{StartIsCoherentBy, CoherenceIsKeptBy, PresentFootprintsSuffice, PresentMakesAreUndisturbed, PresentTracesAreRight, PresentTracesAreUndisturbed, EachMakeIsRight, ReadsDecideNothing};
ghost use Rattle.mk_build_behaviours.specs.Serial.{StartIsSerialBy, OneJobStaysSerialBy};
ghost use Rattle.mk_build_behaviours.specs.Trusting.{CoherentIsTrusting, AllMayBeTrusted, TrustedFilesAreRight, TrustedTracesStayCoherent};
ghost use Rattle.mk_build_behaviours.specs.Undisturbed.{OneJobIsUndisturbed, ApartIsUndisturbed};
ghost use Rattle.mk_build_behaviours.specs.StraightLaws.{StraightTracesAreTodays, TodaysTracesAreTraces, StraightOutcomesAreThese, StraightFootprintsArePresent};

/// If what recipes write is sound, a start disk is coherent.
pub fn start_is_coherent_by()
    ensures { StartIsCoherentBy }
{}

/// If what recipes write is sound, each trace in which no file that a recipe reads changes before
/// the end of its run keeps a disk coherent, whatever the sources make recipes read.
pub fn coherence_is_kept_by()
    ensures { CoherenceIsKeptBy }
{}

/// If footprints cover what recipes read in a clean build from the present sources, are sound,
/// without race and with a way for each read of a file that can change, then a make from a coherent
/// disk is right. What recipes read when they last ran doesn't matter.
pub fn present_footprints_suffice()
    ensures { PresentFootprintsSuffice }
{}

/// Such a make changes no file that a recipe reads before the end of its run.
pub fn present_makes_are_undisturbed()
    ensures { PresentMakesAreUndisturbed }
{}

/// If, beside this, footprints are present whenever a make begins, then each trace from a coherent
/// disk is right.
pub fn present_traces_are_right()
    ensures { PresentTracesAreRight }
{}

/// In such a trace no file that a recipe reads changes before the end of its run.
pub fn present_traces_are_undisturbed()
    ensures { PresentTracesAreUndisturbed }
{}

/// Each make is right, whatever was before: after any trace from a coherent disk in which no file
/// that a recipe reads changes before the end of its run, a make with present footprints that are
/// sound, without race and with ways builds its goals, if it ends.
pub fn each_make_is_right()
    ensures { EachMakeIsRight }
{}

/// If no recipe reads what it writes, makes with one job change no file that a recipe reads before
/// the end of its run.
pub fn one_job_is_undisturbed()
    ensures { OneJobIsUndisturbed }
{}

/// If no recipe runs while another one runs that writes what it has looked at, no file that a
/// recipe reads changes before the end of its run.
pub fn apart_is_undisturbed()
    ensures { ApartIsUndisturbed }
{}

/// If what recipes write is sound, no last runs of recipes overlap on a start disk.
pub fn start_is_serial_by()
    ensures { StartIsSerialBy }
{}

/// Makes with one job that change no file that a recipe reads before the end of its run leave a
/// disk on which no last runs overlap, if they began on one.
pub fn one_job_stays_serial_by()
    ensures { OneJobStaysSerialBy }
{}

/// If behaviours are straight and looks are at files of footprints, each trace by behaviours is a
/// trace of today's world, and leaves the same world but for the known outcomes.
pub fn straight_traces_are_todays()
    ensures { StraightTracesAreTodays }
{}

/// A trace of today's world is a trace by behaviours if the outcomes known at its end are those of
/// the behaviours, straight or not.
pub fn todays_traces_are_traces()
    ensures { TodaysTracesAreTraces }
{}

/// Outcomes that a function gives are those of the straight behaviours that it gives.
pub fn straight_outcomes_are_these()
    ensures { StraightOutcomesAreThese }
{}

/// If behaviours are straight and each writes as many contents as its recipe has files, footprints
/// are present, whatever the sources contain.
pub fn straight_footprints_are_present()
    ensures { StraightFootprintsArePresent }
{}

/// With other reads in its footprints a coherent disk is coherent, and a trace is one, leaves the
/// same world, and disturbs no recipe if it didn't.
pub fn reads_decide_nothing()
    ensures { ReadsDecideNothing }
{}

/// A coherent disk is coherent as far as any recipes are trusted.
pub fn coherent_is_trusting()
    ensures { CoherentIsTrusting }
{}

/// All recipes may be trusted where there is no race and each read of a file that can change has a
/// way, and only there.
pub fn all_may_be_trusted()
    ensures { AllMayBeTrusted }
{}

/// What trusted recipes write is right after a finished make, whatever races and stale reads the
/// others have.
pub fn trusted_files_are_right()
    ensures { TrustedFilesAreRight }
{}

/// Traces keep a disk coherent as far as recipes are trusted, whatever races and stale reads the
/// others have.
pub fn trusted_traces_stay_coherent()
    ensures { TrustedTracesStayCoherent }
{}
