//! Laws of the names of goals and nodes. Each law is the contract of a function with an empty body;
//! a caller of the function has the law.

ghost use Rattle.mk_infer.specs.NameLaws.{GoalsArePlain, NodesHavePlainNames};

/// If the names in the rule lines of a makefile are well formed, its goals are plain paths.
pub fn goals_are_plain()
    ensures { GoalsArePlain }
{}

/// The names of the nodes of a graph are plain paths if its goals and the present names are plain
/// paths and the names in the rule lines are well formed.
pub fn nodes_have_plain_names()
    ensures { NodesHavePlainNames }
{}
