//! Laws of the names that goals reach, of their graph, and of written files that count as present.
//! Each law is the contract of a function with an empty body; a caller of the function has the law.

ghost use Rattle.mk_infer.specs.Laws.{GraphStaysSelected, HandedGraphIsSound, MeetsWhatIsReached, MoreTakesNoChoiceAway, NewNamesLeaveLess, PartsStaySelected, SelectionExists, SelectionIsOne, WalkExists, WalkGoesOn, WalkIsOne, WritesChangeNothing};

use mk_graph::laws::{
    closes_only_cycles, comes_through_without_cycles, walk_has_an_end, walk_has_one_end,
};
use mk_read_laws::laws::groups_keep_their_words;

/// A walk from goals visits exactly the names that the goals reach, each once, whatever
/// prerequisites names have.
pub fn meets_what_is_reached()
    ensures { MeetsWhatIsReached }
{}

/// All walks from the same goals visit the same names in the same order.
pub fn walk_is_one()
    ensures { WalkIsOne }
{}

/// A makefile, the files that exist before a make and goals have at most one answer that isn't
/// `Memory`, a graph or a fault. So `select` returns exactly that answer or runs out of memory.
pub fn selection_is_one()
    ensures { SelectionIsOne }
{
    walk_has_one_end();
}

/// If each name that the goals reach has the same inferred prerequisite whether none or all of the
/// written files are present, it makes no difference which of them are present: the answer (graph
/// or fault) and the commands of each reached name are the same.
pub fn writes_change_nothing()
    ensures { WritesChangeNothing }
{}

/// A name that has an inferred prerequisite still has one, perhaps another, if more names are
/// present.
pub fn more_takes_no_choice_away()
    ensures { MoreTakesNoChoiceAway }
{}

/// There is a walk from any goals: only the targets of rule lines, and names that an inference rule
/// makes from a present name, have prerequisites.
pub fn walk_exists()
    ensures { WalkExists }
{}

/// There is a walk of any names after any names were visited.
pub fn walk_goes_on()
    ensures { WalkGoesOn }
{}

/// Each new name leaves a walk less to do: its prerequisites replace its weight. So a walk
/// terminates.
pub fn new_names_leave_less()
    ensures { NewNamesLeaveLess }
{}

/// The graph of the names that a walk from the goals visits is sound, as `Graph::build` requires:
/// its names are distinct, its numbers are in range, and the goals reach all its nodes.
pub fn handed_graph_is_sound()
    ensures { HandedGraphIsSound }
{
    groups_keep_their_words();
}

/// A makefile, the files that exist before a make and goals have an answer, a graph or a fault,
/// that isn't `Memory`.
pub fn selection_exists()
    ensures { SelectionExists }
{
    walk_has_an_end();
    groups_keep_their_words();
}

/// If each node of the graph of these goals has the same inferred prerequisite whether none or all
/// of the written files are present, the goals have this graph with any part of them present, and
/// its nodes have the same inferred prerequisites and commands.
pub fn graph_stays_selected()
    ensures { GraphStaysSelected }
{
    groups_keep_their_words();
}

/// Under the premise of `graph_stays_selected` any of the goals, in any order, have a graph of
/// their own of which the same holds, and each of its nodes is one of the graph of all goals: it
/// has the same name, the same prerequisites by name in the same groups, and is a recipe or phony
/// exactly if that one is.
pub fn parts_stay_selected()
    ensures { PartsStaySelected }
{
    walk_has_an_end();
    closes_only_cycles();
    comes_through_without_cycles();
    groups_keep_their_words();
}
