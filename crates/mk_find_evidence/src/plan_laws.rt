//! Laws about the plans that show findings, for a caller that has read the makefile and the
//! footprints and selected the graph. Each function exists for its contract alone: a caller has the
//! law as a fact.

ghost use Rattle.mk_find_evidence.specs.PlanLaws.{NamesOfSubjectArePlain, ShownStepsRun};

use mk_foot::laws::names_read_are_plain;
use mk_infer_laws::name_laws::{goals_are_plain, nodes_have_plain_names};
use mk_read_laws::rule_laws::{rule_lines_are_well_named, texts_are_plain};
use mk_world_plan::laws::written_history_runs;

/// All names in the world of a subject that was read are plain paths: those of nodes and sources,
/// and those of files that recipes read or write.
pub fn names_of_subject_are_plain()
    ensures { NamesOfSubjectArePlain }
{
    goals_are_plain();
    names_read_are_plain();
    nodes_have_plain_names();
    rule_lines_are_well_named();
    texts_are_plain();
}

/// Take steps that show a finding of a subject that was read, with a text of at most 65,536 lines.
/// The text is read as a plan. In the first world the plan has a run to its end, and each of its
/// runs takes these steps, except for passes of nodes without recipe, which a run takes by itself.
pub fn shown_steps_run()
    ensures { ShownStepsRun }
{
    names_of_subject_are_plain();
    written_history_runs();
}
