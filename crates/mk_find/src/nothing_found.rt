//! Whether there is no static finding.

ghost use Rattle.std.specs.Prelude.{◌≡◌, ◌↔◌, [], true, IfOk, OnOk};
ghost use Rattle.mk_find.specs.Candidates.{static_candidates};
ghost use Rattle.mk_subject.specs.NodeRow.{IsRow};
ghost use Rattle.mk_find.specs.Listed.{Adds};
ghost use Rattle.mk_find.specs.Listing.{Lists};
ghost use Rattle.mk_find.specs.NodeChecks.{candidates_of_node, found_of};

use crate::finding_list::FindingList;
use crate::node_check::{AFTER_PAIRS, BEFORE_PAIRS, NodeCheck, run_check};
use crate::pairs::note_files;
use mk_graph::laws::serial_reaches_each_once;
use mk_subject::{NodeRow, Subject};
use std::alloc::{AllocError, Global};

/// Adds what these checks find at a node.
fn run_checks_on(
    subject: &Subject<'_>,
    checks: &[NodeCheck],
    row: &NodeRow<'_>,
    found: &mut FindingList,
) -> Result<(), AllocError>
    requires { IsRow subject.now row.now }
    ensures { OnOk result (Adds subject.now
        (candidates_of_node subject.now checks.now row.now.number) found.old
        found.new) }
{
    for check in checks {
        run_check(subject, *check, row, found)?;
    }
    Ok(())
}

/// Whether no check finds anything at a node.
fn finds_nothing_of(
    alloc: Global,
    subject: &Subject<'_>,
    row: &NodeRow<'_>,
) -> Result<bool, AllocError>
    requires { IsRow subject.now row.now }
    ensures { IfOk result (λ nothing. (nothing ≡ true) ↔
        Lists subject.now (found_of subject.now row.now.number) []) }
{
    let mut found = FindingList::new(alloc);
    run_checks_on(subject, &BEFORE_PAIRS, row, &mut found)?;
    note_files(subject, row, &mut found)?;
    run_checks_on(subject, &AFTER_PAIRS, row, &mut found)?;
    Ok(found.is_empty())
}

/// Whether there is no finding of `static_findings`. One pass over the nodes decides it, where
/// `static_findings` makes a pass for each check. The only error is out of memory.
pub fn finds_nothing(alloc: Global, subject: &Subject<'_>) -> Result<bool, AllocError>
    ensures { IfOk result (λ nothing. (nothing ≡ true) ↔
        Lists subject.now (static_candidates subject.now) []) }
{
    serial_reaches_each_once();
    let _graph = subject.graph();
    let entries = subject.entries();
    for entry in entries {
        if !finds_nothing_of(alloc, subject, entry)? {
            return Ok(false);
        }
    }
    Ok(true)
}
