//! The findings that need neither a way nor the order.

ghost use Rattle.std.specs.Prelude.{[], map, IfOk, OnOk};
ghost use Rattle.mk_infer.specs.Laws.{StaysSelected};
ghost use Rattle.mk_find.specs.Candidates.{static_candidates};
ghost use Rattle.mk_find.specs.Listed.{Adds, HasNoSelection};
ghost use Rattle.mk_subject.specs.Subject.{all_writes, name_of};
ghost use Rattle.mk_find.specs.FindingLaws.{PartsStay};
ghost use Rattle.mk_find.specs.NodeChecks.{candidates_before_pairs, candidates_after_pairs, candidates_of_checks};

use crate::finding::Finding;
use crate::finding_laws::nothing_found_is_selected;
use crate::finding_list::FindingList;
use crate::node_check::{AFTER_PAIRS, BEFORE_PAIRS, NodeCheck, run_check_on_all};
use crate::nothing_found::finds_nothing;
use crate::pairs::note_pairs;
use mk_subject::Subject;
use std::alloc::{AllocError, Global};

/// Adds what these checks find at all nodes, one check after another.
fn run_checks_on_all(
    subject: &Subject<'_>,
    checks: &[NodeCheck],
    found: &mut FindingList,
) -> Result<(), AllocError>
    ensures { OnOk result (Adds subject.now (candidates_of_checks subject.now checks.now)
        found.old found.new) }
{
    for check in checks {
        run_check_on_all(subject, *check, found)?;
    }
    Ok(())
}

/// Adds the findings of the checks that come before pairs of writers. The only error is out of
/// memory.
pub fn run_checks_before_pairs(
    subject: &Subject<'_>,
    found: &mut FindingList,
) -> Result<(), AllocError>
    ensures { OnOk result (Adds subject.now (candidates_before_pairs subject.now)
        found.old found.new) }
{
    run_checks_on_all(subject, &BEFORE_PAIRS, found)
}

/// Adds the findings of the checks that come after pairs of writers. The only error is out of
/// memory.
pub fn run_checks_after_pairs(
    subject: &Subject<'_>,
    found: &mut FindingList,
) -> Result<(), AllocError>
    ensures { OnOk result (Adds subject.now (candidates_after_pairs subject.now)
        found.old found.new) }
{
    run_checks_on_all(subject, &AFTER_PAIRS, found)
}

/// All findings except races and stale reads, which need the order or ways. They come in the order
/// of the variants of `Finding`; within a kind by the position of the first name in the serial
/// order, then of the file in its record, then of the other name. The only error is out of memory.
///
/// Without a `Selection` finding, the same graph, inferred prerequisites and commands are selected
/// whatever part of the files that recipes write exists, for the goals and for each subset of them.
pub fn static_findings(alloc: Global, subject: &Subject<'_>) -> Result<Vec<Finding>, AllocError>
    ensures found { IfOk result (λ found. Adds subject.now (static_candidates subject.now) []
        found.items) }
    ensures selected { IfOk result (λ found. HasNoSelection found.items →
        StaysSelected subject.now.makefile subject.now.there (all_writes subject.now)
        (map (name_of subject.now) subject.now.graph.goals) subject.now.graph) }
    ensures parts { IfOk result (λ found. HasNoSelection found.items →
        PartsStay subject.now.makefile subject.now.there (all_writes subject.now)
        (map (name_of subject.now) subject.now.graph.goals) subject.now.graph) }
{
    nothing_found_is_selected();
    let _graph = subject.graph();
    let mut found = FindingList::new(alloc);
    if finds_nothing(alloc, subject)? {
        return Ok(found.into_findings());
    }
    run_checks_before_pairs(subject, &mut found)?;
    note_pairs(subject, &mut found)?;
    run_checks_after_pairs(subject, &mut found)?;
    Ok(found.into_findings())
}
