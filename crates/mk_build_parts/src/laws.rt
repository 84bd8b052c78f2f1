//! Laws of parts of graphs. Each is the contract of an empty function; calling the function gives
//! the law.

ghost use Rattle.mk_build_parts.specs.Alike.{PartsBuildAlike};

/// Each trace over a part of a graph, with some of its goals, is by names a trace over the whole
/// graph, and leaves the same files.
pub fn parts_build_alike()
    ensures { PartsBuildAlike }
{}
