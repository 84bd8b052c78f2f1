//! Laws about groups of findings, and about the lines that are shown. Each function exists for its
//! contract alone: a caller has the law as a fact.

ghost use Rattle.mk_claims.specs.Laws.{GroupsHoldAll, ShownCloseNoCycle};

/// The groups of claims claim just these, each as often: none is lost, none is made up, and none
/// stands in two groups.
pub fn groups_hold_all()
    ensures { GroupsHoldAll }
{}

/// The lines that are shown close no cycle of prerequisites, with those of the graph.
pub fn shown_close_no_cycle()
    ensures { ShownCloseNoCycle }
{}
