//! Laws of graphs, of walks and of the serial order. Each is the contract of an empty function;
//! calling the function gives the law.

ghost use Rattle.mk_graph.specs.Laws.{SerialReachesEachOnce, PrerequisitesComeFirst, GoalsDecideWhatComesFirst, SerialOrderOfOne, OrderOfAllGoals, WalkHasAnEnd, WalkHasOneEnd, ClosesOnlyCycles, ComesThroughWithoutCycles, HeightsForbidCycles, NoCycleGivesHeights};

/// In a graph without cycles the serial order contains exactly the nodes that the goals reach, each
/// once.
pub fn serial_reaches_each_once()
    ensures { SerialReachesEachOnce }
{}

/// In a graph without cycles the serial order puts each direct prerequisite before its node.
pub fn prerequisites_come_first()
    ensures { PrerequisitesComeFirst }
{}

/// In a graph without cycles the serial order of two lists of goals is that of the first list
/// alone, followed by what only the second list reaches, in the order of the second list alone.
pub fn goals_decide_what_comes_first()
    ensures { GoalsDecideWhatComesFirst }
{}

/// In a graph without cycles the serial order of one node is the serial order of its prerequisites
/// followed by the node. With `goals_decide_what_comes_first` this determines the order of any
/// goals.
pub fn serial_order_of_one()
    ensures { SerialOrderOfOne }
{}

/// The serial order of all goals is the serial order of the graph.
pub fn order_of_all_goals()
    ensures { OrderOfAllGoals }
{}

/// A depth-first, left-to-right walk from the goals of a sound graph has an end.
pub fn walk_has_an_end()
    ensures { WalkHasAnEnd }
{}

/// The walk of a graph has at most one end: it completes, or it closes one path.
pub fn walk_has_one_end()
    ensures { WalkHasOneEnd }
{}

/// A path that the walk closes goes along direct prerequisites of reached nodes and ends where it
/// begins.
pub fn closes_only_cycles()
    ensures { ClosesOnlyCycles }
{}

/// If the walk of a sound graph completes, no path of prerequisites leads from a node to itself.
pub fn comes_through_without_cycles()
    ensures { ComesThroughWithoutCycles }
{}

/// If nodes have heights such that each prerequisite is lower than its node, no path of
/// prerequisites leads from a node to itself.
pub fn heights_forbid_cycles()
    ensures { HeightsForbidCycles }
{}

/// If no path of prerequisites leads from a node of a sound graph to itself, nodes have heights
/// such that each prerequisite is lower than its node.
pub fn no_cycle_gives_heights()
    ensures { NoCycleGivesHeights }
{}
