//! Laws of how histories go on. Each is the contract of an empty function; calling the function
//! gives the law.

ghost use Rattle.mk_build_progress.specs.GoingOn.{EditsCanFollow, MakesCanFollow};

/// After a trace that leaves no make in progress, each editable file may be edited to any content,
/// if there is a stamp left.
pub fn edits_can_follow()
    ensures { EditsCanFollow }
{}

/// After a trace from a start disk that leaves no make in progress, each part of the goals can be
/// made with one job, if there are enough stamps: any recipes that need not run may be passed, and
/// the others run whole. A make of a part of the goals is never refused, whatever happened before.
pub fn makes_can_follow()
    ensures { MakesCanFollow }
{}
