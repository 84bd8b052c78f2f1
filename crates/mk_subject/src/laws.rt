//! Laws about subjects. Each function exists for its contract alone: a caller has the law as a
//! fact.

ghost use Rattle.mk_subject.specs.Carried.{CarriedExactly};
ghost use Rattle.mk_subject.specs.Laws.{AllWritesExactly, PathsAreWays, SelectedGoals};

use mk_graph::laws::serial_reaches_each_once;
use mk_infer_laws::laws::meets_what_is_reached;

/// `all_writes` has each file that a recipe of the graph writes, and no other.
pub fn all_writes_exactly()
    ensures { AllWritesExactly }
{
    serial_reaches_each_once();
}

/// `carried` lists exactly the recipes that a node carries.
pub fn carried_exactly()
    ensures { CarriedExactly }
{
    serial_reaches_each_once();
}

/// A recipe has a way to a file exactly if there is a path from it to the file.
pub fn paths_are_ways()
    ensures { PathsAreWays }
{}

/// The selected graph has the goals that were asked for, in their order.
pub fn selected_goals()
    ensures { SelectedGoals }
{
    meets_what_is_reached();
}
