//! The first finding, without computing the ones after it.

ghost use Rattle.std.specs.Prelude.{◌≡◌, ◌∷◌, List, [], IfOk, MatchOption};
ghost use Rattle.mk_graph.specs.Serial.{serial_order};
ghost use Rattle.mk_find.specs.Candidates.{pairs_of_writers, race_candidates, static_candidates};
ghost use Rattle.mk_find.specs.Listed.{IsFirstFinding};
ghost use Rattle.mk_subject.specs.NodeRow.{IsRow};
ghost use Rattle.mk_find.specs.NodeChecks.{candidates_before_pairs, candidates_after_pairs, pairs_with};
ghost use Rattle.mk_find.specs.declared.finding.Finding.{Finding};

use crate::finding::Finding;
use crate::finding_list::FindingList;
use crate::nothing_found::finds_nothing;
use crate::pairs::note_files;
use crate::race_findings::note_races;
use crate::static_checks::{run_checks_after_pairs, run_checks_before_pairs};
use mk_graph::laws::serial_reaches_each_once;
use mk_subject::{NodeRow, Subject};
use std::alloc::{AllocError, Global};

/// The first of these findings, if there are any.
fn first_of(found: FindingList) -> Option<Finding>
    ensures { MatchOption result (found ≡ [])
        (λ first. (rest : List Finding) × (found ≡ first ∷ rest)) }
{
    let mut found = found.into_findings();
    if found.is_empty() {
        return None;
    }
    Some(found.swap_remove(0))
}

/// The first finding of the checks that come before pairs of writers.
fn first_before_pairs(alloc: Global, subject: &Subject<'_>) -> Result<Option<Finding>, AllocError>
    ensures { IfOk result (IsFirstFinding subject.now (candidates_before_pairs subject.now)) }
{
    let mut found = FindingList::new(alloc);
    run_checks_before_pairs(subject, &mut found)?;
    Ok(first_of(found))
}

/// The first finding of the checks that come after pairs of writers.
fn first_behind_pairs(alloc: Global, subject: &Subject<'_>) -> Result<Option<Finding>, AllocError>
    ensures { IfOk result (IsFirstFinding subject.now (candidates_after_pairs subject.now)) }
{
    let mut found = FindingList::new(alloc);
    run_checks_after_pairs(subject, &mut found)?;
    Ok(first_of(found))
}

/// The first pair of this recipe and a later one in the serial order that both write some file.
fn first_pair_with(
    alloc: Global,
    subject: &Subject<'_>,
    row: &NodeRow<'_>,
) -> Result<Option<Finding>, AllocError>
    requires { IsRow subject.now row.now }
    ensures { IfOk result (IsFirstFinding subject.now (pairs_with subject.now row.now.number)) }
{
    let mut found = FindingList::new(alloc);
    note_files(subject, row, &mut found)?;
    Ok(first_of(found))
}

/// The first pair of recipes that write a file. It searches one recipe at a time, since the number
/// of all pairs can be quadratic.
fn first_pair(alloc: Global, subject: &Subject<'_>) -> Result<Option<Finding>, AllocError>
    ensures { IfOk result (IsFirstFinding subject.now
        (pairs_of_writers subject.now (serial_order subject.now.graph))) }
{
    serial_reaches_each_once();
    let _graph = subject.graph();
    let entries = subject.entries();
    for entry in entries {
        if let Some(finding) = first_pair_with(alloc, subject, entry)? {
            return Ok(Some(finding));
        }
    }
    Ok(None)
}

/// The first of the findings that need neither a way nor the order: those of `static_findings`. The
/// only error is out of memory.
pub fn first_static(alloc: Global, subject: &Subject<'_>) -> Result<Option<Finding>, AllocError>
    ensures { IfOk result (IsFirstFinding subject.now (static_candidates subject.now)) }
{
    if finds_nothing(alloc, subject)? {
        return Ok(None);
    }
    if let Some(finding) = first_before_pairs(alloc, subject)? {
        return Ok(Some(finding));
    }
    if let Some(finding) = first_pair(alloc, subject)? {
        return Ok(Some(finding));
    }
    first_behind_pairs(alloc, subject)
}

/// The first race. The only error is out of memory.
pub fn first_race(alloc: Global, subject: &Subject<'_>) -> Result<Option<Finding>, AllocError>
    ensures { IfOk result (IsFirstFinding subject.now (race_candidates subject.now)) }
{
    let mut found = FindingList::new(alloc);
    note_races(subject, &mut found)?;
    Ok(first_of(found))
}
