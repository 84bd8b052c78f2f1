//! The checks of a single node.

ghost use Rattle.std.specs.Prelude.{OnOk};
ghost use Rattle.mk_find.specs.Candidates.{by_node};
ghost use Rattle.mk_subject.specs.NodeRow.{IsRow};
ghost use Rattle.mk_find.specs.Listed.{Adds};
ghost use Rattle.mk_find.specs.NodeChecks.{candidates_of_check};

use crate::file_findings::{note_given_written, note_own_reads, note_unknown_reads};
use crate::finding_list::FindingList;
use crate::node_findings::{
    note_no_record, note_no_target, note_other_commands, note_selection, note_varying,
};
use crate::writer_findings::note_loose;
use mk_subject::{NodeRow, Subject};
use std::alloc::AllocError;

/// A check of a single node. Each variant finds one kind of finding.
#[derive(Clone, Copy, Debug, Drop)]
pub enum NodeCheck {
    /// `NoRecord`: its recipe has no record.
    Record,
    /// `OtherCommands`: the record has other commands than the recipe.
    Commands,
    /// `VaryingCommands`: the commands vary from make to make.
    Varying,
    /// `NoTarget`: the recipe doesn't write its target.
    Target,
    /// `GivenWritten`: the recipe writes files that are given, phony, or passed over as missing
    /// when the makefile was read.
    Given,
    /// `OwnRead`: the recipe reads files that it writes.
    Own,
    /// `UnknownRead`: the recipe reads files that are neither given nor written by any recipe.
    Unknown,
    /// `Loose`: the node has no recipe, and its file has writers that aren't among its direct
    /// prerequisites.
    Loose,
    /// `Selection`: it gets another inferred prerequisite once all recipes have written their
    /// files.
    Choice,
}

/// The checks that come before the search for pairs of writers.
pub const BEFORE_PAIRS: [NodeCheck; 4] = [
    NodeCheck::Record,
    NodeCheck::Commands,
    NodeCheck::Varying,
    NodeCheck::Target,
];

/// The checks that come after it.
pub const AFTER_PAIRS: [NodeCheck; 5] = [
    NodeCheck::Given,
    NodeCheck::Own,
    NodeCheck::Unknown,
    NodeCheck::Loose,
    NodeCheck::Choice,
];

/// Adds to `found` what `check` finds at the node. Names of files are shared through
/// `names`. The only error is out of memory.
pub fn run_check(
    subject: &Subject<'_>,
    check: NodeCheck,
    row: &NodeRow<'_>,
    found: &mut FindingList,
) -> Result<(), AllocError>
    requires { IsRow subject.now row.now }
    ensures { OnOk result
        (Adds subject.now (candidates_of_check subject.now check row.now.number)
        found.old found.new) }
{
    match check {
        NodeCheck::Record => note_no_record(row, found),
        NodeCheck::Commands => note_other_commands(row, found),
        NodeCheck::Varying => note_varying(row, found),
        NodeCheck::Target => note_no_target(row, found),
        NodeCheck::Given => note_given_written(subject, row, found),
        NodeCheck::Own => note_own_reads(subject, row, found),
        NodeCheck::Unknown => note_unknown_reads(subject, row, found),
        NodeCheck::Loose => note_loose(subject, row, found),
        NodeCheck::Choice => note_selection(row, found),
    }
}

/// Adds to `found` what `check` finds at all nodes, in the serial order. The only
/// error is out of memory.
pub fn run_check_on_all(
    subject: &Subject<'_>,
    check: NodeCheck,
    found: &mut FindingList,
) -> Result<(), AllocError>
    ensures { OnOk result
        (Adds subject.now (by_node subject.now (candidates_of_check subject.now check))
        found.old found.new) }
{
    let entries = subject.entries();
    for entry in entries {
        run_check(subject, check, entry, found)?;
    }
    Ok(())
}
