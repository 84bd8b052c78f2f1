//! The verdict on a build: its certificate or its findings.

ghost use Rattle.std.specs.Prelude.{◌≡◌, [], IfErr, IfOk};
ghost use Rattle.mk_find.specs.Certifying.{HasShortestWays, IsCertificate};
ghost use Rattle.mk_find.specs.Findings.{AreFindings};

use crate::certifying::names_of;
use crate::finding::Finding;
use crate::finding_list::FindingList;
use crate::race_findings::note_races;
use crate::stale_findings::judge_all;
use crate::static_checks::static_findings;
use crate::way_laws::certificate_is_shortest;
use mk_cert_text::Certificate;
use mk_subject::Subject;
use std::alloc::{AllocError, Global};

/// The certificate of a build without findings; else the findings, as `findings` returns them. One
/// search from each recipe serves for both. The only error is out of memory.
pub fn judge(
    alloc: Global,
    subject: &Subject<'_>,
) -> Result<Result<Certificate, Vec<Finding>>, AllocError>
    ensures nothing { IfOk result (λ judged. IfOk judged (λ _. AreFindings subject.now [])) }
    ensures certificate { IfOk result (λ judged. IfOk judged (λ certificate.
        IsCertificate subject.now certificate)) }
    ensures shortest { IfOk result (λ judged. IfOk judged (λ certificate.
        HasShortestWays subject.now certificate)) }
    ensures found { IfOk result (λ judged. IfErr judged (λ found.
        AreFindings subject.now found.items)) }
    ensures some { IfOk result (λ judged. IfErr judged (λ found. ¬ (found.items ≡ []))) }
{
    certificate_is_shortest();
    let first = static_findings(alloc, subject)?;
    if !first.is_empty() {
        return Ok(Err(first));
    }
    let mut found = FindingList::new(alloc);
    note_races(subject, &mut found)?;
    let ways = judge_all(alloc, subject, &mut found)?;
    let found = found.into_findings();
    if !found.is_empty() {
        return Ok(Err(found));
    }
    let graph = subject.graph();
    let goals = names_of(alloc, subject, graph.goals())?;
    Ok(Ok(Certificate { goals, ways }))
}

/// The findings of a build, in the order in which they are printed: the static findings (1 to 9,
/// 12) if there are any; else the races (10), followed by the stale reads (11). The only error is
/// out of memory.
pub fn findings(alloc: Global, subject: &Subject<'_>) -> Result<Vec<Finding>, AllocError>
    ensures { IfOk result (λ found. AreFindings subject.now found.items) }
{
    match judge(alloc, subject)? {
        Ok(_) => Ok(Vec::new(alloc)),
        Err(found) => Ok(found),
    }
}
