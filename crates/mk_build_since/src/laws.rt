//! Laws of changes of the makefile. Each is the contract of an empty function; calling the function
//! gives the law.

ghost use Rattle.mk_build_since.specs.Adding.{AddedPrerequisitesKeepCoherence, PrerequisitesMayBeAdded};
ghost use Rattle.mk_build_since.specs.Needed.{RulesAreNeeded, TrustIsNeeded};
ghost use Rattle.mk_build_since.specs.SinceLaws.{NextIsCoherent, NextBuildsAreRight, NextIsCoherentTrusting, NextBuildsAreRightTrusting, TrustNamesNoMore, PrerequisitesNameNothing, WaysAreDecided};

/// After a finished make of all goals of an accepted build, any edits, new and deleted sources, and
/// the removal of the named files, the disk is coherent for the new build.
pub fn next_is_coherent()
    ensures { NextIsCoherent }
{}

/// So if the new build is accepted whenever a make of it begins, then each of its makes is right.
pub fn next_builds_are_right()
    ensures { NextBuildsAreRight }
{}

/// After a finished make of a build with races and stale reads, any edits, new and deleted sources,
/// and the removal of the named files, the disk is coherent for the new build. What a recipe of
/// that writes is named too if the old one of its target isn't trusted, unless every make makes it.
pub fn next_is_coherent_trusting()
    ensures { NextIsCoherentTrusting }
{}

/// So if the new build is accepted, and its footprints are present whenever a make of it begins,
/// then each of its makes is right.
pub fn next_builds_are_right_trusting()
    ensures { NextBuildsAreRightTrusting }
{}

/// Of an accepted build all recipes may be trusted, and no more files are named then.
pub fn trust_names_no_more()
    ensures { TrustNamesNoMore }
{}

/// If only prerequisites, phony names and goals differ, and no recipe reads a makefile text, then
/// nothing is named.
pub fn prerequisites_name_nothing()
    ensures { PrerequisitesNameNothing }
{}

/// If no last runs of recipes overlap on a disk, it is coherent for a graph with more
/// prerequisites.
pub fn added_prerequisites_keep_coherence()
    ensures { AddedPrerequisitesKeepCoherence }
{}

/// After makes with one job prerequisites may be added without a clean build: with present
/// footprints that are sound, without race and with ways, each make is right from then on.
pub fn prerequisites_may_be_added()
    ensures { PrerequisitesMayBeAdded }
{}

/// Without one of the rules the others fall short: after the removal of the files that they name a
/// make may end without having built its goal.
pub fn rules_are_needed()
    ensures { RulesAreNeeded }
{}

/// Where the old build has races, all rules together fall short, though each of its reads has a
/// way: a recipe in a race may have left a file that is newer than what it read, and wrong. So not
/// each recipe of such a build can be trusted.
pub fn trust_is_needed()
    ensures { TrustIsNeeded }
{}

/// Where footprints are sound, a recipe has a way for a file or has none.
pub fn ways_are_decided()
    ensures { WaysAreDecided }
{}
