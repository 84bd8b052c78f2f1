//! Laws about where findings are shown. Each function exists for its contract alone: a caller has
//! the law as a fact.

ghost use Rattle.mk_sentences.specs.Laws.{ShownAtRule, ShownWhereNamed};

/// A name is shown at the first rule line of the makefile that gives it commands; without one, at
/// the first that has it as a target.
pub fn shown_at_rule()
    ensures { ShownAtRule }
{}

/// A name is shown at no rule line only where none of the makefile has it as a target.
pub fn shown_where_named()
    ensures { ShownWhereNamed }
{}
