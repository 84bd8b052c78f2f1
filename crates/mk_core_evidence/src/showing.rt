//! The command `check -e`: the plan that shows a finding.

ghost use Rattle.std.specs.Prelude.{◌≡◌, true, map, option_map, IfErr, IfOk, MatchOption, OnErr};
ghost use Rattle.mk_find.specs.declared.finding.Finding.{Finding as FindingValue};
ghost use Rattle.mk_find.specs.Findings.{AreFindings};
ghost use Rattle.mk_read.specs.Files.{IfFits, Keeps};
ghost use Rattle.mk_core_evidence.specs.NotRead.{evidence_not_read};
ghost use Rattle.mk_core.specs.Answer.{Answers, NotesFailure};
ghost use Rattle.mk_core.specs.Ready.{macros_for};
ghost use Rattle.mk_core.specs.CheckAnswer.{AnswersCheck};
ghost use Rattle.mk_core.specs.Right.{IsRightFor};
ghost use Rattle.mk_world.specs.NamedStep.{step_view};
ghost use Rattle.mk_world_plan.specs.PlanText.{plan_text};
ghost use Rattle.mk_find_evidence.specs.Shown.{IsNotShown, IsReported};
ghost use Rattle.mk_core_evidence.specs.EvidenceAnswer.{AnswersEvidence, GivesPlanOrVerdict, HasVerdict, HasYes, IsEvidence, IsEvidenceText, IsNumbered, IsPlanFor, findings_in, plan_in};
ghost use Rattle.mk_core.specs.Steps.{is_out_of_memory, seen};
ghost use Rattle.mk_core_text.specs.declared.fault.Fault.TheVariants.{Memory};

use mk_core::laws::yes_is_right;
use mk_core::{Fault, Judge, Request, Verdict, answer_judged, drop_or_leak, verdict_of};
use mk_find::Finding;
use mk_find_evidence::evidence;
use mk_read_files::Files;
use mk_subject::Subject;
use mk_world::Step;
use mk_world_plan::plan_text;
use std::alloc::{AllocError, Global};

/// The finding with this number, counted from 1.
fn finding_at(found: &[Finding], number: u64) -> Option<&Finding>
    ensures { MatchOption result
        ((finding : FindingValue) → ¬ (IsNumbered found.now number finding))
        (λ finding. IsNumbered found.now number finding.now) }
{
    if number == 0 || number > found.len() as u64 {
        return None;
    }
    Some(&found[(number - 1) as usize])
}

/// The plan of these steps as text.
fn text_of(alloc: Global, subject: &Subject<'_>, steps: &[Step<'_>]) -> Result<Vec<u8>, AllocError>
    ensures { IfOk result (λ text. text.items ≡
        plan_text subject.now.graph (map step_view steps.now)) }
{
    let text = plan_text(alloc, subject.graph(), steps)?;
    Ok(text.into_bytes())
}

/// The plan that shows a finding of the build; `None` if nothing shows it.
fn plan_for(
    alloc: Global,
    subject: &Subject<'_>,
    finding: &Finding,
) -> Result<Option<Vec<u8>>, AllocError>
    requires { IsReported subject.now finding.now }
    ensures { IfOk result (λ plan. MatchOption plan (IsNotShown subject.now finding.now)
        (λ text. IsPlanFor subject.now finding.now text.items)) }
{
    let Some(steps) = evidence(alloc, subject, finding)? else {
        return Ok(None);
    };
    let text = text_of(alloc, subject, &steps)?;
    Ok(Some(text))
}

/// The answer to a request for the plan that shows a finding.
#[derive(Debug, Drop)]
pub enum Evidence {
    /// The plan.
    Plan(Vec<u8>),
    /// There is no such plan; this is the verdict.
    NoPlan(Verdict),
}

/// The plan that shows the finding with this number; `None` if there is no such finding or nothing
/// shows it.
fn plan_of(
    alloc: Global,
    subject: &Subject<'_>,
    found: &[Finding],
    number: u64,
) -> Result<Option<Vec<u8>>, AllocError>
    requires { AreFindings subject.now found.now }
    ensures { IfOk result (λ plan. IsEvidenceText subject.now number
        (option_map (λ text. text.items) plan)) }
{
    match finding_at(found, number) {
        Some(finding) => plan_for(alloc, subject, finding),
        None => Ok(None),
    }
}

/// The findings of a verdict; none for a yes.
fn findings_in(verdict: &Verdict) -> &[Finding]
    ensures { result.now ≡ findings_in verdict.now }
{
    match verdict {
        Verdict::Yes { .. } => &[],
        Verdict::No(found) => found.as_slice(),
    }
}

/// The plan that shows the finding with this number, or the verdict if there is no such plan.
fn evidence_of(
    alloc: Global,
    subject: &Subject<'_>,
    number: u64,
    leaves_memory: bool,
) -> Result<Evidence, AllocError>
    ensures { IfOk result (λ evidence. IsEvidence subject.now number evidence) }
{
    let verdict = verdict_of(alloc, subject)?;
    match plan_of(alloc, subject, findings_in(&verdict), number)? {
        Some(plan) => {
            drop_or_leak(verdict, leaves_memory);
            Ok(Evidence::Plan(plan))
        }
        None => Ok(Evidence::NoPlan(verdict)),
    }
}

/// The command `check -e`.
#[derive(Drop)]
struct ShowFinding {
    number: u64,
    leaves_memory: bool,
}

impl Judge for ShowFinding {
    type Answer = Evidence;

    ghost judges = { λ c _ x answer. GivesPlanOrVerdict x c.number answer };

    fn is_brief(&self) -> bool {
        false
    }

    fn judge<F: Files>(
        &self,
        alloc: Global,
        _files: &mut F,
        subject: &Subject<'_>,
    ) -> Result<Evidence, Fault> {
        let evidence = evidence_of(alloc, subject, self.number, self.leaves_memory)?;
        Ok(evidence)
    }

    ghost not_read = { λ c _ x fault. evidence_not_read x c.number fault };
}

/// The plan that `evidence_text` returns, or, if there is none, the verdict that `check` returns;
/// it reads the files only once.
///
/// The errors are those of `check`, in their order.
pub fn evidence_or_verdict<F: Files>(
    alloc: Global,
    files: &mut F,
    request: &Request,
    number: u64,
) -> Result<Evidence, Fault>
    ensures keeps { Keeps (F.fits files.old) (F.fits files.new) }
    ensures plan { IfFits (F.fits files.new)
        (λ told. Answers told request.now (AnswersEvidence number) (seen plan_in result)) }
    ensures verdict { IfFits (F.fits files.new)
        (λ told. HasVerdict (Answers told request.now AnswersCheck) result) }
    ensures right { IfFits (F.fits files.new)
        (λ told. HasYes result → IsRightFor told request.now) }
    ensures memory { IfErr result (λ fault. is_out_of_memory fault ≡ true → fault ≡ Memory) }
    ensures noted { NotesFailure (F.failed files.old) (F.failed files.new) result }
    ensures untouched { OnErr (macros_for request.now) (files.new ≡ files.old) }
{
    yes_is_right();
    let leaves_memory = request.leaves_memory;
    let show = ShowFinding {
        number,
        leaves_memory,
    };
    answer_judged(alloc, files, request, show)
}

/// The plan that shows the finding with this number, counted from 1 in the order in which `check`
/// prints the findings. For a race the plan ends with the begin of the recipe while the writer
/// isn't done; for a stale read, at its end, the file is newer than all files that the recipe
/// writes. It is `None` for any other finding, if no finding has this number, and if there are too
/// few stamps.
///
/// The errors are those of `check`, in their order.
pub fn evidence_text<F: Files>(
    alloc: Global,
    files: &mut F,
    request: &Request,
    number: u64,
) -> Result<Option<Vec<u8>>, Fault>
    ensures keeps { Keeps (F.fits files.old) (F.fits files.new) }
    ensures answer { IfFits (F.fits files.new)
        (λ told.
        Answers told request.now (AnswersEvidence number)
        (seen (option_map (λ text. text.items)) result)) }
    ensures memory { IfErr result (λ fault. is_out_of_memory fault ≡ true → fault ≡ Memory) }
    ensures noted { NotesFailure (F.failed files.old) (F.failed files.new) result }
    ensures untouched { OnErr (macros_for request.now) (files.new ≡ files.old) }
{
    match evidence_or_verdict(alloc, files, request, number)? {
        Evidence::Plan(plan) => Ok(Some(plan)),
        Evidence::NoPlan(_) => Ok(None),
    }
}
